// Why a message is not sealed.

#[derive(Clone, Copy, PartialEq, Eq, Debug)]
pub enum Unsealed {
    // with length and tag it would have more than 1,100 bytes
    TooLong,
    // the buffer is too short
    NoRoom,
    // each of the 2^64 numbers is used
    Spent,
}
