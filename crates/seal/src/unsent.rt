// Why a message is not sent.
ghost use Rattle.std.specs.Prelude.{◌≡◌};
ghost use Rattle.seal.specs.Causes.{unsent_for};

use wire::unwritten::Unwritten;

#[derive(Clone, Copy, PartialEq, Eq, Debug)]
pub enum Unsent {
    // no bytes stand for it
    Unsendable,
    // the buffer is too short
    NoRoom,
    // each of the 2^64 numbers is used
    Spent,
}

impl From<Unwritten> for Unsent {
    ghost from_gives = { λ why unsent. unsent ≡ unsent_for why };

    fn from(why: Unwritten) -> Unsent {
        match why {
            Unwritten::Unsendable => Unsent::Unsendable,
            Unwritten::NoRoom => Unsent::NoRoom,
        }
    }
}
