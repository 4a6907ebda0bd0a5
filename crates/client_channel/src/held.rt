// A channel with its bytes.
ghost use Rattle.std.specs.Prelude.{◌≡◌};

use crate::buffers::Buffers;
use crate::state::Channel;

#[derive(Drop)]
pub struct Held {
    pub channel: Channel,
    pub buffers: Buffers,
}

impl Held {
    ghost use Rattle.client_channel.specs.Kept.{fresh};
    ghost use Rattle.client_channel.specs.Held.{kept_of};

    // A channel whose start is sent now, with its bytes in this memory.
    pub fn start(mut buffers: Buffers, number: u16) -> Held
        ensures { kept_of result ≡ fresh number }
    {
        buffers.clear();
        let channel = Channel::new(number);
        Held { channel, buffers }
    }
}

// Its memory, when the channel is over.
impl From<Held> for Buffers {
    ghost from_gives = { λ held memory. memory ≡ held.buffers };

    fn from(held: Held) -> Buffers {
        held.buffers
    }
}
