// One way of a connection.
use hmac::Mac;

mod make;
mod opens;
mod seals;
mod sends;
mod turns;

// The most bytes of an inside: with length and tag a message has at most 1,100.
pub const LARGEST: usize = 1082;

// Kept: what a way stands for is no function of its fields, so contracts say it by `WhereStands`.
#[derive(Clone, Copy)]
pub struct Way {
    // of the cipher
    key: [u8; 32],
    // has taken in what every tag of this way begins with
    mac: Mac,
    // the number of the next message; none once each is used
    next: Option<u64>,
}
