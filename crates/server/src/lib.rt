// The server as a value, for any programs and any accounts: messages in, turns, messages out, and no IO.
#![tactic(auto)]

ghost use Rattle.std.specs.Prelude.{◌≡◌};
ghost use Rattle.server.specs.declared.Stop.TheVariants as stop;

use desk::Desk;
use message::fault::Fault;
use programs::accounts::Accounts;
use programs::programs::Programs;

pub mod connect;
pub mod receive;
#[cfg(test)]
mod session;
pub mod turns;

// Why a call does nothing.
// Kept: one type for all calls, and the clause of each says which of the three cannot come.
#[derive(Clone, Copy, PartialEq, Eq, Debug)]
pub enum Refusal {
    // messages are still owed: hand them out first
    Owed,
    // the connection is cut
    Down,
    // the connection is not cut, or programs of the last one are still held
    Busy,
}

// Why a message was not taken: the call was refused, or the message is a fault, for which the connection is cut.
#[derive(Clone, Copy, PartialEq, Eq, Debug)]
pub enum Stop {
    Refused(Refusal),
    Fault(Fault),
}

impl From<Refusal> for Stop {
    ghost from_gives = { λ r s. s ≡ stop.Refused r };

    fn from(refusal: Refusal) -> Stop {
        Stop::Refused(refusal)
    }
}

impl From<Fault> for Stop {
    ghost from_gives = { λ f s. s ≡ stop.Fault f };

    fn from(fault: Fault) -> Stop {
        Stop::Fault(fault)
    }
}

#[derive(Drop)]
pub struct Server<P: Programs, A: Accounts> {
    programs: P,
    accounts: A,
    desk: Desk<P::State>,
}
