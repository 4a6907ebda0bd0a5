// A program from bytes, and back.
ghost use Rattle.std.specs.Prelude.{◌≡◌, ◌≤◌, length, IfOk, MatchResult};
ghost use Rattle.bytecode.specs.Encoding.{bytes_of};
ghost use Rattle.bytecode.specs.Reading.{instructions_of, Unread};

use crate::instruction::Instruction;
use crate::program::{LONGEST, Program};
use crate::unreadable::{ReadError, Unreadable};
use std::alloc::{AllocError, Global};

impl Program {
    // The program whose bytes these are, or the first place at which no instruction can be read.
    pub fn read(heap: Global, bytes: &[u8]) -> Result<Program, ReadError>
        ensures { MatchResult result (λ p. bytes_of (instructions_of p) ≡ bytes.now) (λ e. Unread bytes.now e) }
    {
        let mut instructions = Vec::new(heap);
        for row in bytes.chunks(8) {
            let place = instructions.len();
            if place >= LONGEST {
                return Err(Unreadable::TooMany.into());
            }
            if row.len() < 8 {
                return Err(Unreadable::CutShort { place }.into());
            }
            let Ok(instruction) = Instruction::try_from(row) else {
                return Err(Unreadable::NoInstruction { place }.into());
            };
            instructions.push(instruction)?;
        }
        Ok(Program { instructions })
    }

    // Its bytes, 8 an instruction.
    pub fn write(&self, heap: Global) -> Result<Vec<u8>, AllocError>
        ensures { IfOk result (λ v. v.items ≡ bytes_of (instructions_of self.now)) }
    {
        let mut bytes = Vec::new(heap);
        // Kept: a loop, since a `flat_map` of arrays is no shorter and would need a proof by hand.
        for instruction in self.as_slice() {
            bytes.extend_from_slice(&<[u8; 8]>::from(*instruction))?;
        }
        Ok(bytes)
    }

    pub fn as_slice(&self) -> &[Instruction]
        ensures value { result.now ≡ instructions_of self.now }
        ensures bound { length result.now ≤ 1024 }
    {
        self.instructions.as_slice()
    }
}
