// A program's turn.
ghost use Rattle.std.specs.Prelude.{◌≡◌, ◌≤◌, true, length, take, drop};
ghost use Rattle.message.specs.Views.{chunk_bytes};
ghost use Rattle.model.specs.Messages as model;
ghost use Rattle.server_channel.specs.Kept.{kept};
ghost use Rattle.server_channel.specs.Turns.{acts, acts_in, drained_in, turn_by, env_after, life_after, env_ended, life_ended, TurnsTo, dry};

use crate::{Channel, Life};
use message::chunk::{Chunk, LARGEST};
use programs::programs::{Action, Programs};

impl<S: Drop> Channel<S> {
    // Whether one that reads has to wait.
    fn is_dry(&self) -> bool
        ensures { result ≡ dry self.now }
    {
        self.input.is_empty() && !self.counts.eof
    }

    // Moves input out, at most so much.
    fn fetch(&mut self, most: usize) -> Chunk
        requires { most ≤ 1024 }
        ensures bytes { chunk_bytes result ≡ take most self.old.input }
        ensures left { self.new ≡ kept self.old.counts self.old.life (drop (length (chunk_bytes result)) self.old.input) self.old.output }
    {
        let count = most.min(self.input.len());
        Chunk::taken(&mut self.input, count)
    }

    // The program is told what it read.
    fn resume<P: Programs<State = S>>(&mut self, programs: &mut P, bytes: &[u8], eof: bool)
        ensures env { programs.new ≡ env_after P.meaning programs.old self.old.life bytes.now eof }
        ensures left { self.new ≡ kept self.old.counts (life_after P.meaning programs.old self.old.life bytes.now eof) self.old.input self.old.output }
    {
        if let Life::Running(state) = &mut self.life {
            programs.resume(state, bytes, eof);
        }
    }

    // The program ends.
    fn end<P: Programs<State = S>>(&mut self, programs: &mut P, status: u8)
        ensures env { programs.new ≡ env_ended P.meaning programs.old self.old.life }
        ensures left { self.new ≡ kept self.old.counts (life_ended P.meaning self.old.life status) self.old.input self.old.output }
    {
        if let Life::Running(state) = &self.life {
            programs.finish(state);
            self.life = Life::Ended(status);
        }
    }

    // It reads up to so many bytes: it is told those that came, or that no more will come; else it waits.
    fn read<P: Programs<State = S>>(&mut self, programs: &mut P, most: u16) -> usize
        ensures turned { TurnsTo (acts P.meaning true programs.old self.old (model.Reads most)) programs.new self.new result }
        ensures small { result ≤ 1024 }
    {
        let most = usize::from(most);
        if most == 0 || most > LARGEST {
            self.end(programs, 255);
            return 0;
        }
        if self.is_dry() {
            return 0;
        }
        let chunk = self.fetch(most);
        self.resume(programs, chunk.as_slice(), chunk.is_empty());
        chunk.len()
    }

    // It writes: if all output went, or if what is written goes nowhere; else it waits.
    fn write<P: Programs<State = S>>(&mut self, programs: &mut P, chunk: &Chunk, up: bool)
        ensures { TurnsTo (acts P.meaning up programs.old self.old (model.Writes (chunk_bytes chunk.now))) programs.new self.new 0 }
    {
        if chunk.is_empty() {
            self.end(programs, 255);
        } else if !up {
            self.resume(programs, &[], false);
        } else if self.output.is_empty() {
            self.output.append(chunk.as_slice());
            self.resume(programs, &[], false);
        }
    }

    // What the program asks for is done; how much it read.
    fn act<P: Programs<State = S>>(&mut self, programs: &mut P, up: bool) -> usize
        ensures turned { TurnsTo (acts_in P.meaning up programs.old self.old self.old.life) programs.new self.new result }
        ensures small { result ≤ 1024 }
    {
        let Life::Running(state) = &self.life else {
            return 0;
        };
        match programs.ask(state) {
            Action::Read(most) => return self.read(programs, most),
            Action::Write(chunk) => self.write(programs, &chunk, up),
            Action::End(status) => self.end(programs, u8::try_from(status).unwrap_or(255)),
            Action::GoOn => self.resume(programs, &[], false),
        }
        0
    }

    // After the cut a turn counts, and the last one ends the program.
    fn drain<P: Programs<State = S>>(&mut self, programs: &mut P)
        ensures { TurnsTo (drained_in P.meaning programs.old self.old) programs.new self.new 0 }
    {
        let left = self.counts.left;
        self.counts.left = left.saturating_sub(1);
        if left <= 1 {
            self.end(programs, 255);
        }
    }

    // A turn of the channel's program, if it runs; how much input it read for which more may come.
    pub fn turn<P: Programs<State = S>>(&mut self, programs: &mut P, up: bool) -> usize
        ensures turned { TurnsTo (turn_by P.meaning up programs.old self.old) programs.new self.new result }
        ensures small { result ≤ 1024 }
    {
        if self.has_ended() {
            return 0;
        }
        let freed = self.act(programs, up);
        if up {
            return freed;
        }
        self.drain(programs);
        0
    }
}
