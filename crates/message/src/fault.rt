// What a side cannot take from the other: it then cuts the connection.
ghost use Rattle.std.specs.Prelude.{◌≡◌};
ghost use Rattle.model.specs.Messages.{fault_number};
ghost use Rattle.message.specs.Views.{fault};

#[derive(Clone, Copy, PartialEq, Eq, Debug)]
pub enum Fault {
    // a message that its channel's state rules out
    OutOfTurn,
    // a credit that cannot be counted
    Uncountable,
    // a channel that was never started
    NeverStarted,
    // more bytes than the window
    BeyondWindow,
    // one login too many that is not accepted
    TooManyTries,
}

// Its number in the table of faults.
impl From<Fault> for u8 {
    ghost from_gives = { λ f n. n ≡ fault_number (fault f) };

    fn from(found: Fault) -> u8 {
        match found {
            Fault::OutOfTurn | Fault::Uncountable => 3,
            Fault::NeverStarted | Fault::BeyondWindow => 4,
            Fault::TooManyTries => 6,
        }
    }
}
