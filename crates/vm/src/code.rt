// A program's instructions, lent.
ghost use Rattle.std.specs.Prelude.{◌≡◌, ◌<◌, ◌≤◌, length, IfSome};
ghost use Rattle.std.specs.List.{slice_get};

use bytecode::instruction::Instruction;

#[derive(Clone, Copy)]
pub struct Code<'a> {
    pub instructions: &'a [Instruction],
    ghost short: { length instructions.now ≤ 1024 },
}

impl Code<'_> {
    // The instruction at a place, if that is in the row.
    pub fn at(self, place: u32) -> Option<Instruction>
        ensures value { result ≡ slice_get self.entry.instructions.now place }
        ensures within { IfSome result (λ _. place < 1024) }
    {
        self.instructions.get(place as usize).copied()
    }
}
