// A message of the client.
ghost use Rattle.std.specs.Prelude.{◌≡◌, true, ◌&&◌, Ok, length, nat_lt};
ghost use Rattle.model.specs.Messages as model;
ghost use Rattle.message.specs.Views.{request, to_server};
ghost use Rattle.desk.specs.Events.{is_fresh};
ghost use Rattle.desk.specs.Quiet.{silent};
ghost use Rattle.desk.specs.Sight.{view_of};
ghost use Rattle.server.specs.Calls.{IfRefused, may_user};
ghost use Rattle.server.specs.Whole.{ServerReceives, ServerTakes, ServerPasses};

use crate::{Refusal, Server, Stop};
use message::fault::Fault;
use message::to_server::{Request, ToServer};
use programs::accounts::Accounts;
use programs::programs::Programs;

impl<P: Programs, A: Accounts> Server<P, A> {
    // A login; the fault is one too many.
    fn login(&mut self, user: u8, proof: &[u8; 32]) -> Result<(), Fault>
        requires { self.old.desk.up ≡ true }
        ensures after { ServerTakes A.grants P.meaning (model.Login user proof.now) self.old result self.new }
        ensures same { self.new.accounts ≡ self.old.accounts }
    {
        let right = self.accounts.is_right(user, proof);
        self.desk.login(user, right)
    }

    fn may_run(&self, command: u8) -> bool
        ensures { result ≡ may_user (A.grants self.now.accounts).may self.now.desk.user command }
    {
        self.desk
            .user()
            .is_some_and(|user| self.accounts.may_run(user, command))
    }

    fn can_run(&self, channel: u16, command: u8) -> bool
        ensures { result ≡ (may_user (A.grants self.now.accounts).may self.now.desk.user command && (is_fresh channel (view_of self.now.desk) && nat_lt (length (view_of self.now.desk).channels) 16)) }
    {
        self.may_run(command) && self.desk.has_room(channel)
    }

    // A start: it runs, or is answered that it does not.
    fn run(&mut self, channel: u16, command: u8)
        ensures after { ServerTakes A.grants P.meaning (model.For channel (model.Run command)) self.old (Ok tt) self.new }
        ensures same { self.new.accounts ≡ self.old.accounts }
    {
        if self.can_run(channel, command) {
            let state = self.programs.start(command);
            self.desk.start(channel, state);
        } else {
            self.desk.refuse(channel);
        }
    }

    // A message for a channel, but a start. If the channel is not held, it is dropped if the channel was, else a fault.
    fn pass(&mut self, channel: u16, asked: Request) -> Result<(), Fault>
        requires { (self.old.desk.up ≡ true) × (silent (view_of self.old.desk) ≡ true) }
        ensures after { ServerPasses A.grants channel (request asked) self.old result self.new }
        ensures same { self.new.accounts ≡ self.old.accounts }
    {
        match self.desk.find(channel) {
            Some(i) => self.desk.hear(i, asked),
            None if self.desk.is_used(channel) => Ok(()),
            None => {
                self.desk.cut();
                Err(Fault::NeverStarted)
            }
        }
    }

    // A message, but for what is then over.
    fn take(&mut self, message: ToServer) -> Result<(), Fault>
        requires { (self.old.desk.up ≡ true) × (silent (view_of self.old.desk) ≡ true) }
        ensures after { ServerTakes A.grants P.meaning (to_server message) self.old result self.new }
        ensures same { self.new.accounts ≡ self.old.accounts }
    {
        match message {
            ToServer::Login { user, proof } => self.login(user, &proof),
            ToServer::Tick => Ok(()),
            ToServer::For {
                channel,
                request: Request::Run { command },
            } => {
                self.run(channel, command);
                Ok(())
            }
            ToServer::For { channel, request } => self.pass(channel, request),
        }
    }

    // A message of the client. It is taken while nothing is owed and the connection holds; a fault cuts the connection.
    pub fn receive(&mut self, message: ToServer) -> Result<(), Stop>
        ensures after { ServerReceives A.grants P.meaning (to_server message) self.old result self.new }
        ensures refused { IfRefused result (self.new ≡ self.old) }
        ensures same { self.new.accounts ≡ self.old.accounts }
    {
        self.owes_nothing()?;
        if !self.desk.is_up() {
            return Err(Refusal::Down.into());
        }
        let taken = self.take(message);
        self.desk.settle();
        Ok(taken?)
    }
}
