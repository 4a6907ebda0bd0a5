// Why a piece makes no message whole.
ghost use Rattle.std.specs.Prelude.{◌≡◌};
ghost use Rattle.wire.specs.declared.fault.Fault.TheVariants.{Length};

use wire::fault::Fault;

// The message says that it is longer than a message can be, as so many bytes of the piece tell.
#[derive(Clone, Copy, PartialEq, Eq, Debug)]
pub struct TooLong {
    pub used: usize,
}

impl From<TooLong> for Fault {
    ghost from_gives = { λ _ fault. fault ≡ Length };

    fn from(_long: TooLong) -> Fault {
        Fault::Length
    }
}
