// A channel that starts in memory, and the memory again.
ghost use Rattle.std.specs.Prelude.{◌≡◌, not};
ghost use Rattle.server_channel.specs.Kept.{started, is_running};

use crate::{Buffers, Channel, Counts, DRAIN, Life, WINDOW};

impl<S: Drop> Channel<S> {
    // A program starts in this memory.
    pub fn start(buffers: Buffers, number: u16, state: S) -> Channel<S>
        ensures { result ≡ started number state }
    {
        let Buffers {
            mut input,
            mut output,
        } = buffers;
        input.clear();
        output.clear();
        Channel {
            counts: Counts {
                number,
                credit: WINDOW as u64,
                left: DRAIN,
                eof: false,
                said: false,
            },
            life: Life::Running(state),
            input,
            output,
        }
    }

    pub fn number(&self) -> u16
        ensures { result ≡ self.now.counts.number }
    {
        self.counts.number
    }

    pub fn has_ended(&self) -> bool
        ensures { result ≡ not (is_running self.now.life) }
    {
        matches!(&self.life, Life::Ended(_))
    }
}

// Its memory, when the channel is done with.
impl<S: Drop> From<Channel<S>> for Buffers {
    ghost from_gives = { λ channel memory. memory ≡ record { input = channel.input; output = channel.output } };

    fn from(channel: Channel<S>) -> Buffers {
        let Channel {
            counts: _,
            life: _,
            input,
            output,
        } = channel;
        Buffers { input, output }
    }
}
