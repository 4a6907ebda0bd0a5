// What arrives for a channel.
ghost use Rattle.std.specs.Prelude.{◌≡◌, ◌+◌, ◌<◌, MatchOption};
ghost use Rattle.model.specs.Messages as model;
ghost use Rattle.message.specs.Views.{chunk_bytes, request};
ghost use Rattle.server_channel.specs.Kept.{Hears, credit_of};

use crate::{Channel, Counts};
use message::chunk::Chunk;
use message::fault::Fault;
use message::to_server::Request;

impl Counts {
    // So much more may be sent, unless that cannot be counted.
    fn granted(self, more: u32) -> Option<Counts>
        ensures { MatchOption result (0xffff_ffff_ffff_ffff < self.credit + more) (λ c. (self.credit + more < 0x1_0000_0000_0000_0000) × (c ≡ credit_of (self.credit + more) self)) }
    {
        let credit = self.credit.checked_add(u64::from(more))?;
        Some(Counts { credit, ..self })
    }
}

impl<S: Drop> Channel<S> {
    // A message of the client for this channel.
    pub fn hear(&mut self, asked: Request) -> Result<(), Fault>
        ensures { Hears (request asked) self.old result self.new }
    {
        match asked {
            Request::Run { .. } => Err(Fault::OutOfTurn),
            Request::Input(chunk) => self.hear_input(&chunk),
            Request::OutputCredit(more) => self.hear_credit(more),
            Request::Eof => self.hear_eof(),
            Request::Close => self.hear_close(),
        }
    }

    fn hear_input(&mut self, chunk: &Chunk) -> Result<(), Fault>
        ensures { Hears (model.Input (chunk_bytes chunk.now)) self.old result self.new }
    {
        if self.counts.eof {
            return Err(Fault::OutOfTurn);
        }
        if self.input.room() < chunk.len() {
            return Err(Fault::BeyondWindow);
        }
        self.input.append(chunk.as_slice());
        Ok(())
    }

    fn hear_credit(&mut self, more: u32) -> Result<(), Fault>
        ensures { Hears (model.OutputCredit more) self.old result self.new }
    {
        self.counts = self.counts.granted(more).ok_or(Fault::Uncountable)?;
        Ok(())
    }

    fn hear_eof(&mut self) -> Result<(), Fault>
        ensures { Hears model.Eof self.old result self.new }
    {
        if self.counts.eof {
            return Err(Fault::OutOfTurn);
        }
        self.counts.eof = true;
        Ok(())
    }

    // Whether the client may be done with it: its exit was sent.
    fn hear_close(&self) -> Result<(), Fault>
        ensures { Hears model.Close self.now result self.now }
    {
        if self.counts.said {
            Ok(())
        } else {
            Err(Fault::OutOfTurn)
        }
    }
}
