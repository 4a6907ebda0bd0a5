// Where a channel is held, and what is asked of a desk.
ghost use Rattle.std.specs.Prelude.{◌≡◌, length};
ghost use Rattle.std.specs.List.{list_all};
ghost use Rattle.numbers.specs.Has.{has};
ghost use Rattle.desk.specs.Quiet.{silent};
ghost use Rattle.server_channel.specs.Kept.{quiet};
ghost use Rattle.desk.specs.View.{has_ended};
ghost use Rattle.desk.specs.Sight.{view_of, Finds, FirstDue};

use crate::Desk;

impl<S: Drop> Desk<S> {
    // Kept: a place, and no `&mut` to the channel, whose clause would have to say what it lends.
    pub fn find(&self, number: u16) -> Option<usize>
        ensures { Finds number (view_of self.now).channels result }
    {
        self.channels.held.iter().position(|c| c.number() == number)
    }

    // The first channel of which something goes.
    pub fn first_due(&self) -> Option<usize>
        ensures { FirstDue (view_of self.now).channels result }
    {
        self.channels.held.iter().position(|c| !c.is_quiet())
    }

    // Whether no program runs any more.
    pub fn all_ended(&self) -> bool
        ensures { result ≡ list_all has_ended (view_of self.now).channels }
    {
        self.channels.held.iter().all(|c| c.has_ended())
    }

    fn all_quiet(&self) -> bool
        ensures { result ≡ list_all quiet (view_of self.now).channels }
    {
        self.channels.held.iter().all(|c| c.is_quiet())
    }

    // Whether nothing is owed.
    pub fn is_silent(&self) -> bool
        ensures { result ≡ silent (view_of self.now) }
    {
        self.notice.is_none() && (!self.up || self.all_quiet())
    }

    pub fn is_up(&self) -> bool
        ensures { result ≡ self.now.up }
    {
        self.up
    }

    // Who is accepted.
    pub fn user(&self) -> Option<u8>
        ensures { result ≡ self.now.user }
    {
        self.user
    }

    // How many channels are held.
    pub fn held(&self) -> usize
        ensures { result ≡ length (view_of self.now).channels }
    {
        self.channels.held.len()
    }

    pub fn is_used(&self, number: u16) -> bool
        ensures { result ≡ has self.now.numbers number }
    {
        self.numbers.contains(number)
    }
}
