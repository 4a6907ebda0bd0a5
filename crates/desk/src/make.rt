// A desk's memory, and a desk of which nothing was used.
ghost use Rattle.std.specs.Prelude.{◌≡◌, IfOk};
ghost use Rattle.desk.specs.Sight.{view_of, Fresh};

use crate::Desk;
use held::Table;
use numbers::Numbers;
use std::alloc::{AllocError, Global};

impl<S: Drop> Desk<S> {
    // All memory that it will ever use; `Err` where there is not so much.
    pub fn new(heap: Global) -> Result<Desk<S>, AllocError>
        ensures { IfOk result (λ d. Fresh (view_of d)) }
    {
        Ok(Desk {
            channels: Table::new(heap)?,
            numbers: Numbers::new(heap)?,
            next: 0,
            user: None,
            tries: 0,
            up: true,
            notice: None,
        })
    }

    // As new.
    pub fn reset(&mut self)
        ensures { Fresh (view_of self.new) }
    {
        self.channels.clear();
        self.numbers.clear();
        self.next = 0;
        self.user = None;
        self.tries = 0;
        self.up = true;
        self.notice = None;
    }
}
