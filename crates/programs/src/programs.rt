// Programs over a shared environment: whatever starts, runs turn by turn and ends.
ghost use Rattle.std.specs.Prelude.{◌≡◌};
ghost use Rattle.model.specs.Messages as model;
ghost use Rattle.programs.specs.Actions.{action};

use message::chunk::Chunk;

// What a program does in its turn. One that asks for what cannot be, a read or write of no bytes, a read of more than 1,024, a status above 255, is ended with 255.
pub enum Action {
    Read(u16),
    Write(Chunk),
    End(u16),
    GoOn,
}

// The value is the environment that programs share; a program's own state is apart from it.
pub trait Programs {
    type State: Drop;

    // the programs of the model that these are
    ghost meaning: { model.Programs Self.State Self };

    fn start(&self, command: u8) -> Self::State
        ensures { result ≡ meaning.first self.now command };

    fn ask(&self, state: &Self::State) -> Action
        ensures { action result ≡ meaning.does self.now state.now };

    fn resume(&mut self, state: &mut Self::State, read: &[u8], eof: bool)
        ensures state { state.new ≡ meaning.next self.old state.old read.now eof }
        ensures shared { self.new ≡ meaning.after self.old state.old read.now eof };

    fn finish(&mut self, state: &Self::State)
        ensures { self.new ≡ meaning.release self.old state.now };
}
