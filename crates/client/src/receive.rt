// Messages of the server.
ghost use Rattle.std.specs.Prelude.{◌≡◌, ◌<◌, true, false, length, slice_index_or};
ghost use Rattle.message.specs.declared.to_client.ToClient.TheVariants.{Of};
ghost use Rattle.client_channel.specs.Kept.{fresh};
ghost use Rattle.client.specs.View.{view_of};
ghost use Rattle.client.specs.Stand.{busy};
ghost use Rattle.client.specs.Contract.{Received};

use crate::refusal::Rejected;
use crate::value::Client;
use message::fault::Fault;
use message::to_client::{Reply, ToClient};

impl Client {
    // A reply for a channel that is held.
    fn hear_at(&mut self, i: usize, reply: Reply) -> Result<(), Rejected>
        requires idle { busy (view_of self.old) ≡ false }
        requires up { (view_of self.old).up ≡ true }
        requires held { i < length (view_of self.old).kepts }
        ensures { Received (Of (slice_index_or (view_of self.old).kepts i (fresh 0)).number reply) self.old result self.new }
    {
        let held = &mut self.channels.held[i];
        match held.channel.hear(&mut held.buffers, reply) {
            Ok(Some(channel)) => {
                held.channel = channel;
                self.turn = Some(i);
            }
            Ok(None) => self.channels.forget(i),
            Err(fault) => {
                self.up = false;
                return Err(fault.into());
            }
        }
        Ok(())
    }

    // A reply: one for a channel that was is dropped, and one for a channel that never was is a fault.
    fn hear(&mut self, channel: u16, reply: Reply) -> Result<(), Rejected>
        requires idle { busy (view_of self.old) ≡ false }
        requires up { (view_of self.old).up ≡ true }
        ensures { Received (Of channel reply) self.old result self.new }
    {
        if let Some(i) = self.find(u32::from(channel)) {
            return self.hear_at(i, reply);
        }
        if self.used.contains(channel) {
            return Ok(());
        }
        self.up = false;
        Err(Fault::NeverStarted.into())
    }

    // A message that arrived.
    pub fn receive(&mut self, message: ToClient) -> Result<(), Rejected>
        ensures { Received message self.old result self.new }
    {
        if self.is_busy() {
            return Err(Rejected::Busy);
        }
        if !self.up {
            return Err(Rejected::Down);
        }
        match message {
            ToClient::Accepted(accepted) => {
                self.accepted |= accepted;
                Ok(())
            }
            ToClient::Tock => Ok(()),
            ToClient::Of { channel, reply } => self.hear(channel, reply),
        }
    }
}
