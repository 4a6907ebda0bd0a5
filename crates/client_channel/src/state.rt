// A channel's counts, a plain value.
ghost use Rattle.std.specs.Prelude.{◌≡◌};
ghost use Rattle.client_channel.specs.Kept.{kept, no_bytes, fresh};

// Its start was sent; it was told that it runs. A channel that was refused or closed is no longer held.
#[derive(Clone, Copy)]
pub enum Phase {
    Asked,
    Running,
}

#[derive(Clone, Copy)]
pub struct Channel {
    pub number: u16,
    pub phase: Phase,
    // bytes of input that the server has room for, beyond those that were sent
    pub credit: u64,
    // no more input will be entered
    // Kept: the model's channel has the same two marks, and an enum of both would be taken apart in each clause.
    pub eof: bool,
    // and that was sent
    pub said: bool,
    // the status, once it is told
    pub exit: Option<u8>,
}

impl Channel {
    // A channel whose start is sent now.
    pub fn new(number: u16) -> Channel
        ensures { kept result no_bytes ≡ fresh number }
    {
        Channel {
            number,
            phase: Phase::Asked,
            credit: 0,
            eof: false,
            said: false,
            exit: None,
        }
    }
}
