// Turns of programs, what is owed, and the cut.
ghost use Rattle.std.specs.Prelude.{◌≡◌, true, false, OnOk, IfErr};
ghost use Rattle.desk.specs.Quiet.{silent};
ghost use Rattle.desk.specs.Sight.{view_of, Hands};
ghost use Rattle.server.specs.Calls.{IfNot, losing, turning};
ghost use Rattle.server.specs.Whole.{ServerTurns, ServerHasTurn};
ghost use Rattle.server.specs.declared.Refusal.TheVariants.{Owed};

use crate::{Refusal, Server};
use message::to_client::ToClient;
use programs::accounts::Accounts;
use programs::programs::Programs;

impl<P: Programs, A: Accounts> Server<P, A> {
    // The next message that is owed.
    pub fn next_message(&mut self) -> Option<ToClient>
        ensures after { Hands (view_of self.old.desk) result (view_of self.new.desk) }
        ensures same { (self.new.accounts ≡ self.old.accounts) × (self.new.programs ≡ self.old.programs) }
    {
        self.desk.next_message()
    }

    // The check of a call that messages which are owed put off.
    pub(crate) fn owes_nothing(&self) -> Result<(), Refusal>
        ensures ok { OnOk result (silent (view_of self.now.desk) ≡ true) }
        ensures err { IfErr result (λ r. (r ≡ Owed) × (silent (view_of self.now.desk) ≡ false)) }
    {
        if self.desk.is_silent() {
            Ok(())
        } else {
            Err(Refusal::Owed)
        }
    }

    // A turn of a channel's program, if the channel is held, but for what is then over.
    fn take_turn(&mut self, channel: u16)
        requires { silent (view_of self.old.desk) ≡ true }
        ensures after { ServerHasTurn A.grants P.meaning channel self.old self.new }
        ensures same { self.new.accounts ≡ self.old.accounts }
    {
        if let Some(i) = self.desk.find(channel) {
            self.desk.turn(&mut self.programs, i);
        }
    }

    // A turn of a channel's program, if it is held and runs, while nothing is owed.
    pub fn turn(&mut self, channel: u16) -> Result<(), Refusal>
        ensures after { ServerTurns A.grants (turning P.meaning channel) self.old result self.new }
        ensures refused { IfNot result (self.new ≡ self.old) }
        ensures same { self.new.accounts ≡ self.old.accounts }
    {
        self.owes_nothing()?;
        self.take_turn(channel);
        self.desk.settle();
        Ok(())
    }

    // The connection is cut, while nothing is owed.
    pub fn cut(&mut self) -> Result<(), Refusal>
        ensures after { ServerTurns A.grants losing self.old result self.new }
        ensures refused { IfNot result (self.new ≡ self.old) }
        ensures same { self.new.accounts ≡ self.old.accounts }
    {
        self.owes_nothing()?;
        self.desk.cut();
        self.desk.settle();
        Ok(())
    }

    // Time passes: nothing is done.
    pub fn tick(&mut self)
        ensures { self.new ≡ self.old }
    {}
}
