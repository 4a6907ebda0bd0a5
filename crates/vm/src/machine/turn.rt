// A turn: instruction by instruction to the one that ends it.
ghost use Rattle.std.specs.Prelude.{◌≡◌};
ghost use Rattle.programs.specs.Actions.{action};
ghost use Rattle.vm.specs.Turn.{fresh, runs};
ghost use Rattle.vm.specs.Ends.{asks_in, resumed};

use crate::code::Code;
use crate::machine::Machine;
use programs::programs::Action;

// A turn has at most so many instructions.
const MOST: u16 = 10000;

// With this a program ends that asks for what cannot be.
const IMPOSSIBLE: u16 = 255;

impl Machine {
    // A machine before its first instruction.
    pub(crate) fn new() -> Machine
        ensures { result ≡ fresh }
    {
        Machine {
            registers: [0; 16],
            memory: [0; 256],
            counter: 0,
            less: false,
            equal: false,
        }
    }

    // A program's machine in its first turn, at the instruction that ends it.
    pub(crate) fn started(code: Code<'_>) -> Machine
        ensures { result ≡ runs 9999 code.entry.instructions.now fresh }
    {
        let mut machine = Machine::new();
        machine.run(code);
        machine
    }

    // Runs to an instruction that ends the turn, or to the last that the turn may have.
    fn run(&mut self, code: Code<'_>)
        ensures { self.new ≡ runs 9999 code.entry.instructions.now self.old }
    {
        for _done in 1..MOST {
            let Some(instruction) = code.at(self.counter) else {
                return;
            };
            if !self.step(instruction) {
                return;
            }
        }
    }

    // What the program asks for where the machine stands.
    pub(crate) fn ask(&self, code: Code<'_>) -> Action
        ensures { action result ≡ asks_in code.entry.instructions.now self.now }
    {
        code.at(self.counter)
            .and_then(|instruction| self.asks(instruction))
            .unwrap_or_else(|| Action::End(IMPOSSIBLE))
    }

    // A turn, once what was asked for was done: told what was read and whether no more will come.
    pub(crate) fn resume(&mut self, code: Code<'_>, bytes: &[u8], eof: bool)
        ensures { self.new ≡ resumed code.entry.instructions.now bytes.now eof self.old }
    {
        if let Some(instruction) = code.at(self.counter) {
            self.complete(instruction, bytes, eof);
        }
        self.run(code);
    }
}
