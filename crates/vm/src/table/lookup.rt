// The program of a command.
ghost use Rattle.std.specs.Prelude.{◌≡◌, Some, None, MatchOption};
ghost use Rattle.vm.specs.Commands.{code_of, program_of};

use crate::code::Code;
use crate::table::Table;
use bytecode::instruction::Instruction;
use bytecode::program::Program;

impl Table {
    pub fn find(&self, command: u8) -> Option<&Program>
        ensures { MatchOption result (program_of self.now command ≡ None) (λ p. program_of self.now command ≡ Some p.now) }
    {
        self.programs.get(&command)
    }

    // Its instructions; a command that is not listed has none.
    pub fn code(&self, command: u8) -> Code<'_>
        ensures { result.instructions.now ≡ code_of self.now command }
    {
        let instructions: &[Instruction] = match self.find(command) {
            Some(program) => program.as_slice(),
            None => &[],
        };
        Code { instructions }
    }
}
