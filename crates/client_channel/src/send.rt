// What a channel sends by itself.
ghost use Rattle.std.specs.Prelude.{◌≡◌};
ghost use Rattle.client_channel.specs.Kept.{kept};
ghost use Rattle.client_channel.specs.Steps.{seen_step, next_of, end_of, part_of};

use crate::buffers::Buffers;
use crate::state::{Channel, Phase};
use message::chunk::{Chunk, LARGEST};
use message::to_server::Request;

impl Channel {
    // How much input goes in the next message.
    fn part(&self, buffers: &Buffers) -> usize
        ensures { result ≡ part_of (kept self.now buffers.now) }
    {
        let waiting = buffers.input.len() as u64;
        self.credit.min(waiting).min(LARGEST as u64) as usize
    }

    // After its input: eof, when all of it went, then close, when the exit is known and all output was taken.
    fn next_end(&mut self, buffers: &Buffers) -> Option<Request>
        ensures { seen_step self.new result buffers.now ≡ end_of (kept self.old buffers.now) }
    {
        if self.eof && buffers.input.is_empty() && !self.said {
            self.said = true;
            return Some(Request::Eof);
        }
        (self.exit.is_some() && buffers.output.is_empty()).then_some(Request::Close)
    }

    // The next request that goes by itself; after a close the channel is over.
    pub fn next(&mut self, buffers: &mut Buffers) -> Option<Request>
        ensures { seen_step self.new result buffers.new ≡ next_of (kept self.old buffers.old) }
    {
        let Phase::Running = self.phase else {
            return None;
        };
        let count = self.part(buffers);
        if count == 0 {
            return self.next_end(buffers);
        }
        self.credit -= count as u64;
        Some(Request::Input(Chunk::taken(&mut buffers.input, count)))
    }
}
