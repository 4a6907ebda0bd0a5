// A server is made, and a new connection comes up.
ghost use Rattle.std.specs.Prelude.{◌≡◌, ◌&&◌, not, length, nat_eq, IfOk};
ghost use Rattle.desk.specs.Sight.{view_of};
ghost use Rattle.server.specs.Calls.{Begins, IfNot, IfDone};
ghost use Rattle.server.specs.Whole.{ServerConnects};

use crate::{Refusal, Server};
use desk::Desk;
use programs::accounts::Accounts;
use programs::programs::Programs;
use std::alloc::{AllocError, Global};

impl<P: Programs + Drop, A: Accounts + Drop> Server<P, A> {
    // A server at a first connection, with all the memory that it will ever use: 16 channels of 9,216 bytes, and 8,192 bytes of numbers.
    pub fn new(heap: Global, programs: P, accounts: A) -> Result<Server<P, A>, AllocError>
        ensures { IfOk result (λ s. Begins (view_of s.desk) s.programs × (s.programs ≡ programs) × (s.accounts ≡ accounts)) }
    {
        let desk = Desk::new(heap)?;
        Ok(Server {
            programs,
            accounts,
            desk,
        })
    }

    // Whether the last connection is cut, and all its programs have ended.
    fn is_over(&self) -> bool
        ensures { result ≡ (not self.now.desk.up && nat_eq (length (view_of self.now.desk).channels) 0) }
    {
        !self.desk.is_up() && self.desk.held() == 0
    }

    // A new connection comes up, with its accounts, once the last one is cut and all its programs have ended.
    pub fn connect(&mut self, accounts: A) -> Result<(), Refusal>
        ensures after { ServerConnects self.old result self.new }
        ensures accounts { IfDone result ((self.new.accounts ≡ accounts) × (self.new.programs ≡ self.old.programs)) }
        ensures refused { IfNot result (self.new ≡ self.old) }
    {
        if !self.is_over() {
            return Err(Refusal::Busy);
        }
        self.desk.reset();
        self.accounts = accounts;
        Ok(())
    }
}
