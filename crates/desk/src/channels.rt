// What is done to one channel of a desk.
ghost use Rattle.std.specs.Prelude.{◌≡◌, suc, ◌<◌, ◌≤◌, ◌&&◌, ◌++◌, length, take, drop, nat_lt};
ghost use Rattle.message.specs.Views.{request};
ghost use Rattle.desk.specs.Events.{start_at, refuse_at, holding, is_fresh};
ghost use Rattle.desk.specs.Sight.{view_of, HearsAt, PutsAt, TurnsAt};

use crate::{Desk, Notice};
use message::fault::Fault;
use message::to_server::Request;
use programs::programs::Programs;
use server_channel::Channel;

impl<S: Drop> Desk<S> {
    // Whether a start with that number may run, if somebody may run it.
    pub fn has_room(&self, number: u16) -> bool
        ensures { result ≡ (is_fresh number (view_of self.now) && nat_lt (length (view_of self.now).channels) 16) }
    {
        self.next <= u32::from(number) && !self.channels.is_full()
    }

    // A channel starts, with its program in its first state.
    pub fn start(&mut self, number: u16, state: S)
        requires { (self.old.next ≤ number) × (length (view_of self.old).channels < 16) }
        ensures { view_of self.new ≡ start_at state number (view_of self.old) }
    {
        self.channels
            .start(|memory| Channel::start(memory, number, state));
        self.numbers.insert(number);
        self.next = u32::from(number) + 1;
        self.notice = Some(Notice::Started(number));
    }

    // A start is refused; its number is used, if it was not.
    pub fn refuse(&mut self, number: u16)
        ensures { view_of self.new ≡ refuse_at number (view_of self.old) }
    {
        if self.next <= u32::from(number) {
            self.numbers.insert(number);
            self.next = u32::from(number) + 1;
        }
        self.notice = Some(Notice::Refused(number));
    }

    // The channel is done with, and its memory is spare.
    fn forget(&mut self, i: usize)
        requires { i < length (view_of self.old).channels }
        ensures { view_of self.new ≡ holding (take i (view_of self.old).channels ++ drop (suc i) (view_of self.old).channels) (view_of self.old) }
    {
        self.channels.forget(i);
        self.notice = None;
    }

    // A message for the channel, which it takes in; or a fault, and the connection is cut.
    fn take_in(&mut self, i: usize, asked: Request) -> Result<(), Fault>
        requires { i < length (view_of self.old).channels }
        ensures { PutsAt (request asked) i (view_of self.old) result (view_of self.new) }
    {
        let heard = self.channels.held[i].hear(asked);
        if heard.is_err() {
            self.up = false;
        }
        self.notice = None;
        heard
    }

    // The same; a channel that the client is done with is forgotten.
    pub fn hear(&mut self, i: usize, asked: Request) -> Result<(), Fault>
        requires { i < length (view_of self.old).channels }
        ensures { HearsAt (request asked) i (view_of self.old) result (view_of self.new) }
    {
        self.take_in(i, asked)?;
        if let Request::Close = asked {
            self.forget(i);
        }
        Ok(())
    }

    // A turn of a channel's program.
    pub fn turn<P: Programs<State = S>>(&mut self, programs: &mut P, i: usize)
        requires { i < length (view_of self.old).channels }
        ensures { TurnsAt P.meaning i programs.old (view_of self.old) programs.new (view_of self.new) }
    {
        let channel = &mut self.channels.held[i];
        let number = channel.number();
        let freed = channel.turn(programs, self.up);
        self.notice = (freed > 0).then_some(Notice::Freed(number, freed as u32));
    }
}
