// What a channel sends by itself.
ghost use Rattle.std.specs.Prelude.{◌≡◌, ◌-◌, ◌≤◌, length, take, drop};
ghost use Rattle.message.specs.Views.{chunk_bytes};
ghost use Rattle.server_channel.specs.Kept.{kept, goes, HandsReply, credit_of, quiet, exit_now};

use crate::{Channel, Life};
use message::chunk::{Chunk, LARGEST};
use message::to_client::Reply;

impl<S: Drop> Channel<S> {
    // How many bytes of output may go.
    fn ready(&self) -> usize
        ensures { result ≡ length (goes self.now) }
    {
        self.output.len().min(self.counts.credit as usize)
    }

    // The first bytes of output, as one message.
    fn send(&mut self, count: usize) -> Chunk
        requires { (count ≤ 1024) × (count ≤ length (goes self.old)) }
        ensures bytes { chunk_bytes result ≡ take count (goes self.old) }
        ensures left { self.new ≡ kept (credit_of (self.old.counts.credit - count) self.old.counts) self.old.life self.old.input (drop count self.old.output) }
    {
        self.counts.credit -= count as u64;
        Chunk::taken(&mut self.output, count)
    }

    // The next of the messages that go by themselves.
    pub fn next(&mut self) -> Option<Reply>
        ensures { HandsReply self.old result self.new }
    {
        let ready = self.ready();
        if ready > 0 {
            return Some(Reply::Output(self.send(ready.min(LARGEST))));
        }
        let status = self.exit()?;
        self.counts.said = true;
        Some(Reply::Exit { status })
    }

    // The status of a program that ended, if all output went and the exit did not.
    fn exit(&self) -> Option<u8>
        ensures { result ≡ exit_now self.now }
    {
        match self.life {
            Life::Ended(status) if !self.counts.said && self.output.is_empty() => Some(status),
            _ => None,
        }
    }

    // Whether nothing goes.
    pub fn is_quiet(&self) -> bool
        ensures { result ≡ quiet self.now }
    {
        self.ready() == 0 && self.exit().is_none()
    }
}
