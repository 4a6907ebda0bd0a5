// The number and the place of such a fault.
ghost use Rattle.std.specs.Prelude.{◌≡◌};
ghost use Rattle.bytecode.specs.Reading.{place_of};

use crate::program::LONGEST;
use crate::unreadable::Unreadable;

// What cannot be read: settings, a program.
const UNREADABLE: u8 = 13;

// Its number in the table of faults.
impl From<Unreadable> for u8 {
    ghost from_gives = { λ _ n. n ≡ 13 };

    fn from(_found: Unreadable) -> u8 {
        UNREADABLE
    }
}

impl Unreadable {
    // The place of the instruction that cannot be.
    pub fn place(self) -> usize
        ensures { result ≡ place_of self }
    {
        match self {
            Unreadable::NoInstruction { place } | Unreadable::CutShort { place } => place,
            Unreadable::TooMany => LONGEST,
        }
    }
}
