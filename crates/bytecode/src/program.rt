// A program: a row of at most 1,024 instructions.
ghost use Rattle.std.specs.Prelude.{◌≤◌, vec_len};

use crate::instruction::Instruction;

pub mod bytes;

pub const LONGEST: usize = 1024;

#[derive(Drop)]
pub struct Program {
    instructions: Vec<Instruction>,
    ghost ok: { vec_len instructions ≤ 1024 },
}
