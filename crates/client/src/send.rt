// The messages that go by themselves, one by one, and the cut.
ghost use Rattle.std.specs.Prelude.{◌≡◌, []};
ghost use Rattle.client.specs.View.{pending_of};
ghost use Rattle.client.specs.Contract.{Hands, Cut};

use crate::refusal::Refused;
use crate::value::{Client, Pending};
use message::to_server::{Request, ToServer};

impl Client {
    // The next request of the one channel that may have something to send.
    fn next_of_turn(&mut self) -> Option<ToServer>
        requires { pending_of self.old.pending ≡ [] }
        ensures { Hands self.old result self.new }
    {
        let i = self.turn?;
        let held = &mut self.channels.held[i];
        let channel = held.channel.number;
        let Some(request) = held.channel.next(&mut held.buffers) else {
            self.turn = None;
            return None;
        };
        if let Request::Close = request {
            self.turn = None;
            self.channels.forget(i);
        }
        Some(ToServer::For { channel, request })
    }

    // The next message to send. After each other call it is called until there is none.
    pub fn next_message(&mut self) -> Option<ToServer>
        ensures { Hands self.old result self.new }
    {
        match self.pending.take() {
            None => self.next_of_turn(),
            Some(Pending::Login { user, proof }) => Some(ToServer::Login { user, proof }),
            Some(Pending::Run { channel, command }) => {
                let request = Request::Run { command };
                Some(ToServer::For { channel, request })
            }
            Some(Pending::Credit { channel, count }) => {
                let request = Request::OutputCredit(count);
                Some(ToServer::For { channel, request })
            }
        }
    }

    // The connection is cut here.
    pub fn cut(&mut self) -> Result<(), Refused>
        ensures { Cut self.old result self.new }
    {
        self.ready()?;
        self.up = false;
        Ok(())
    }
}
