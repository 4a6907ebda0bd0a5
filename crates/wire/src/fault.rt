// What is wrong with bytes that came: the connection is cut for it.
ghost use Rattle.std.specs.Prelude.{◌≡◌};
ghost use Rattle.wire.specs.Faults.{fault_number};

#[derive(Clone, Copy, PartialEq, Eq, Debug)]
pub enum Fault {
    // a message of more than 1,100 bytes, or a stream that ends inside a message
    Length,
    // the tag does not fit
    Tag,
    // the inside is no message
    Malformed,
}

// Its number in the table of faults.
impl From<Fault> for u8 {
    ghost from_gives = { λ fault n. n ≡ fault_number fault };

    fn from(fault: Fault) -> u8 {
        match fault {
            Fault::Length => 1,
            Fault::Tag => 2,
            Fault::Malformed => 3,
        }
    }
}
