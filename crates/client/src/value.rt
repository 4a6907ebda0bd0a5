// The client's state, and how it begins.
ghost use Rattle.std.specs.Prelude.{◌≡◌, ◌<◌, IfOk, vec_len};
ghost use Rattle.std.specs.Option.{ForSome};

use client_channel::buffers::Buffers;
use client_channel::held::Held;
use held::Table;
use numbers::Numbers;
use std::alloc::{AllocError, Global};

// What a command itself sends, until it is handed out. Small, since each call of `next_message` reads it; a `ToServer` is as large as a chunk.
#[derive(Clone, Copy)]
pub enum Pending {
    Login { user: u8, proof: [u8; 32] },
    Run { channel: u16, command: u8 },
    Credit { channel: u16, count: u32 },
}

#[derive(Drop)]
pub struct Client {
    pub(crate) channels: Table<Held, Buffers>,
    pub(crate) used: Numbers,
    // the least number above all that were used
    pub(crate) next: u32,
    // whether it was told that its login is accepted
    pub(crate) accepted: bool,
    // whether the connection holds here
    pub(crate) up: bool,
    pub(crate) pending: Option<Pending>,
    // the place of the one channel that may have something to send
    pub(crate) turn: Option<usize>,
    ghost turn_held: { ForSome turn (λ i. i < vec_len channels.held) },
}

impl Client {
    ghost use Rattle.client.specs.View.{view_of};
    ghost use Rattle.client.specs.Stand.{busy};
    ghost use Rattle.client.specs.Contract.{Begins};

    // All memory is got here; `Err` where there is too little.
    pub fn new(heap: Global) -> Result<Client, AllocError>
        ensures { IfOk result Begins }
    {
        let channels = Table::new(heap)?;
        let used = Numbers::new(heap)?;
        Ok(Client {
            channels,
            used,
            next: 0,
            accepted: false,
            up: true,
            pending: None,
            turn: None,
        })
    }

    // Whether messages may still be owed.
    pub fn is_busy(&self) -> bool
        ensures { result ≡ busy (view_of self.now) }
    {
        self.pending.is_some() || self.turn.is_some()
    }

    pub fn is_up(&self) -> bool
        ensures { result ≡ (view_of self.now).up }
    {
        self.up
    }

    pub fn is_accepted(&self) -> bool
        ensures { result ≡ (view_of self.now).accepted }
    {
        self.accepted
    }
}
