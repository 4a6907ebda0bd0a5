// What is done to a desk at a login, a start and a cut.
ghost use Rattle.std.specs.Prelude.{◌≡◌, true, Ok, Err, if◌then◌else◌};
ghost use Rattle.message.specs.declared.fault.Fault.TheVariants.{TooManyTries};
ghost use Rattle.desk.specs.Events.{login_to, cut_down};
ghost use Rattle.desk.specs.Quiet.{login_fails};
ghost use Rattle.desk.specs.Sight.{view_of};
ghost use Rattle.desk.specs.View.{closed};

use crate::{Desk, Notice};
use message::fault::Fault;

impl<S: Drop> Desk<S> {
    // A login whose proof is right, or not; the fault is one too many.
    pub fn login(&mut self, user: u8, right: bool) -> Result<(), Fault>
        requires { self.old.up ≡ true }
        ensures after { view_of self.new ≡ login_to right user (view_of self.old) }
        ensures fault { result ≡ (if login_fails right (view_of self.old) then Err TooManyTries else Ok tt) }
    {
        if self.user.is_some() {
            self.notice = Some(Notice::Logged(false));
            return Ok(());
        }
        if right {
            self.user = Some(user);
            self.notice = Some(Notice::Logged(true));
            return Ok(());
        }
        self.tries += 1;
        if self.tries < 3 {
            self.notice = Some(Notice::Logged(false));
            return Ok(());
        }
        self.up = false;
        self.notice = None;
        Err(Fault::TooManyTries)
    }

    // The connection is cut.
    pub fn cut(&mut self)
        ensures { view_of self.new ≡ cut_down (view_of self.old) }
    {
        self.up = false;
        self.notice = None;
    }

    // After the cut all is forgotten once all have ended.
    pub fn settle(&mut self)
        ensures { view_of self.new ≡ closed (view_of self.old) }
    {
        if !self.up && self.all_ended() {
            self.channels.clear();
        }
    }
}
