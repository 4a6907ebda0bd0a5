// Why a message is not written.

#[derive(Clone, Copy, PartialEq, Eq, Debug)]
pub enum Unwritten {
    // no bytes stand for it: input or output without bytes, a credit of 0, a user 0
    Unsendable,
    // the buffer is too short
    NoRoom,
}
