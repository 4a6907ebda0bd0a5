// Why a call changes nothing.
ghost use Rattle.std.specs.Prelude.{◌≡◌};
ghost use Rattle.model.specs.Client.{refusal_number};
ghost use Rattle.client.specs.View.{refusal_of};

use message::fault::Fault;

#[derive(Clone, Copy, PartialEq, Eq, Debug)]
pub enum Refusal {
    // the number is not larger than all that were used, or too large
    BadNumber,
    TooManyHeld,
    NotHeld,
    AfterEof,
    // more input than may wait
    TooMuch,
    Down,
}

// Its number in the table of faults.
impl From<Refusal> for u8 {
    ghost from_gives = { λ f n. n ≡ refusal_number (refusal_of f) };

    fn from(refusal: Refusal) -> u8 {
        match refusal {
            Refusal::BadNumber => 5,
            Refusal::TooManyHeld => 7,
            Refusal::NotHeld | Refusal::AfterEof | Refusal::TooMuch | Refusal::Down => 8,
        }
    }
}

// A command is refused: while messages may still be owed, or by its own rules.
#[derive(Clone, Copy, PartialEq, Eq, Debug)]
pub enum Refused {
    Busy,
    By(Refusal),
}

impl From<Refusal> for Refused {
    ghost use Rattle.std.specs.Prelude.{◌≡◌};
    ghost use Rattle.client.specs.declared.refusal.Refused.TheVariants.{By};

    ghost from_gives = { λ f e. e ≡ By f };

    fn from(refusal: Refusal) -> Refused {
        Refused::By(refusal)
    }
}

// A message is not taken: while messages may still be owed, when the connection is down, or for a fault, which takes it down.
#[derive(Clone, Copy, PartialEq, Eq, Debug)]
pub enum Rejected {
    Busy,
    Down,
    For(Fault),
}

impl From<Fault> for Rejected {
    ghost use Rattle.std.specs.Prelude.{◌≡◌};
    ghost use Rattle.client.specs.declared.refusal.Rejected.TheVariants.{For};

    ghost from_gives = { λ f e. e ≡ For f };

    fn from(found: Fault) -> Rejected {
        Rejected::For(found)
    }
}
