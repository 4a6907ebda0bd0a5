// Bytes that are no program.
ghost use Rattle.std.specs.Prelude.{◌≡◌};
ghost use Rattle.bytecode.specs.declared.unreadable.ReadError.TheVariants as error;

use std::alloc::AllocFailed;

pub mod fault;

// Places count instructions, from 0.
#[derive(Clone, Copy, PartialEq, Eq, Debug)]
pub enum Unreadable {
    // these 8 bytes are no instruction
    NoInstruction { place: usize },
    // fewer than 8 bytes are left
    CutShort { place: usize },
    // more than 1,024 instructions
    TooMany,
}

#[derive(Clone, Copy, PartialEq, Eq, Debug)]
pub enum ReadError {
    Unreadable(Unreadable),
    NoMemory,
}

impl From<Unreadable> for ReadError {
    ghost from_gives = { λ e r. r ≡ error.Unreadable e };

    fn from(found: Unreadable) -> ReadError {
        ReadError::Unreadable(found)
    }
}

impl<T: Drop> From<AllocFailed<T>> for ReadError {
    ghost from_gives = { λ _ r. r ≡ error.NoMemory };

    fn from(_refused: AllocFailed<T>) -> ReadError {
        ReadError::NoMemory
    }
}
