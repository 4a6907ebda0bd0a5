// Why a line could not be read.
ghost use Rattle.std.specs.Prelude.{◌≡◌};
ghost use Rattle.token.specs.declared.fault.Fault.{Fault};

use std::alloc::{AllocError, AllocFailed};

#[derive(Clone, Copy, PartialEq, Eq, Debug)]
pub enum Fault {
    // The text is not of the language.
    Bad,
    NoMemory,
}

// Kept: one impl for both errors would overlap the one that makes a fault of itself.
impl From<AllocError> for Fault {
    ghost from_gives = { λ _ r. r ≡ Fault.NoMemory };

    fn from(_e: AllocError) -> Fault {
        Fault::NoMemory
    }
}

impl<T: Drop> From<AllocFailed<T>> for Fault {
    ghost from_gives = { λ _ r. r ≡ Fault.NoMemory };

    fn from(_e: AllocFailed<T>) -> Fault {
        Fault::NoMemory
    }
}
