// What a channel makes of a reply.
ghost use Rattle.std.specs.Prelude.{◌≡◌};
ghost use Rattle.client_channel.specs.Kept.{Bytes, kept};
ghost use Rattle.client_channel.specs.Steps.{seen_heard, UnlessStays, hear_of, asked_of, running_of};
ghost use Rattle.message.specs.Views.{reply as reply_of, chunk_bytes};
ghost use Rattle.model.specs.Messages.{Output, InputCredit, Exit};

use crate::buffers::Buffers;
use crate::state::{Channel, Phase};
use message::chunk::Chunk;
use message::fault::Fault;
use message::to_client::Reply;

impl Channel {
    // While it waits for its answer, nothing else may come.
    fn hear_asked(self, reply: Reply) -> Result<Option<Channel>, Fault>
        ensures { (b : Bytes) → seen_heard result b ≡ asked_of (reply_of reply) (kept self b) }
    {
        match reply {
            Reply::Runs(true) => Ok(Some(Channel {
                phase: Phase::Running,
                ..self
            })),
            Reply::Runs(false) => Ok(None),
            _ => Err(Fault::OutOfTurn),
        }
    }

    fn hear_output(self, buffers: &mut Buffers, chunk: &Chunk) -> Result<Option<Channel>, Fault>
        ensures heard { seen_heard result buffers.new ≡ running_of (Output (chunk_bytes chunk.now)) (kept self buffers.old) }
        ensures same { UnlessStays result (buffers.new ≡ buffers.old) }
    {
        if self.exit.is_some() {
            return Err(Fault::OutOfTurn);
        }
        if chunk.len() > buffers.output.room() {
            return Err(Fault::BeyondWindow);
        }
        buffers.output.append(chunk.as_slice());
        Ok(Some(self))
    }

    fn hear_credit(self, count: u32) -> Result<Option<Channel>, Fault>
        ensures { (b : Bytes) → seen_heard result b ≡ running_of (InputCredit count) (kept self b) }
    {
        let Some(credit) = self.credit.checked_add(u64::from(count)) else {
            return Err(Fault::Uncountable);
        };
        Ok(Some(Channel { credit, ..self }))
    }

    fn hear_exit(self, status: u8) -> Result<Option<Channel>, Fault>
        ensures { (b : Bytes) → seen_heard result b ≡ running_of (Exit status) (kept self b) }
    {
        if self.exit.is_some() {
            return Err(Fault::OutOfTurn);
        }
        Ok(Some(Channel {
            exit: Some(status),
            ..self
        }))
    }

    // The channel after the reply, or none where it was refused; or the fault that the reply is.
    pub fn hear(self, buffers: &mut Buffers, reply: Reply) -> Result<Option<Channel>, Fault>
        ensures heard { seen_heard result buffers.new ≡ hear_of (reply_of reply) (kept self buffers.old) }
        ensures same { UnlessStays result (buffers.new ≡ buffers.old) }
    {
        let Phase::Running = self.phase else {
            return self.hear_asked(reply);
        };
        match reply {
            Reply::Runs(_) => Err(Fault::OutOfTurn),
            Reply::Output(chunk) => self.hear_output(buffers, &chunk),
            Reply::InputCredit(count) => self.hear_credit(count),
            Reply::Exit { status } => self.hear_exit(status),
        }
    }
}
