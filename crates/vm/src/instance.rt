// The programs of a table, as the server runs them.
ghost use Rattle.vm.specs.Commands.{programs};

use crate::machine::Machine;
use crate::running::Running;
use crate::table::Table;
use programs::programs::{Action, Programs};

impl Programs for Table {
    type State = Running;

    ghost meaning = { programs };

    fn start(&self, command: u8) -> Running {
        Running {
            command,
            machine: Machine::started(self.code(command)),
        }
    }

    fn ask(&self, state: &Running) -> Action {
        state.machine.ask(self.code(state.command))
    }

    fn resume(&mut self, state: &mut Running, read: &[u8], eof: bool) {
        let code = self.code(state.command);
        state.machine.resume(code, read, eof);
    }

    fn finish(&mut self, _state: &Running) {}
}
