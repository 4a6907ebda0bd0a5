// put and get as programs: the instance.
ghost use Rattle.files.specs.Moves.{meant};

use crate::files::Files;
use crate::transfer::Transfer;
use crate::turns::start;
use disk::disk::Disk;
use programs::programs::{Action, Programs};

impl<D: Disk> Programs for Files<D> {
    type State = Transfer;

    ghost meaning = { meant D.meaning };

    fn start(&self, command: u8) -> Transfer {
        start(command)
    }

    fn ask(&self, state: &Transfer) -> Action {
        self.ask(state)
    }

    fn resume(&mut self, state: &mut Transfer, read: &[u8], eof: bool) {
        *state = self.turn(*state, read, eof);
    }

    fn finish(&mut self, state: &Transfer) {
        self.give_up(state.phase);
    }
}
