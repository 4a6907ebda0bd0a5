// The server's channels in rising order, who is accepted, which numbers were used, and what is told next.
#![tactic(auto)]

ghost use Rattle.std.specs.Prelude.{◌<◌, ◌≤◌, if◌then◌else◌};

use held::Table;
use numbers::Numbers;
use server_channel::{Buffers, Channel};

pub mod change;
pub mod channels;
pub mod find;
pub mod make;
pub mod tell;

// What is told before anything else: of a login; that a channel does not run, or runs; that more input of one may come.
#[derive(Clone, Copy, PartialEq, Eq, Debug)]
pub enum Notice {
    Logged(bool),
    Refused(u16),
    Started(u16),
    Freed(u16, u32),
}

// Kept: no `impl Model`, whose value is data, since the view holds which numbers were used as a function.
// Kept: an accepted user, the tries and the cut are no one state, since the model knows them apart, and tells of a user after the cut.
// next: the least number that may still be used, at most 65,536.
#[derive(Drop)]
pub struct Desk<S> {
    channels: Table<Channel<S>, Buffers>,
    numbers: Numbers,
    next: u32,
    user: Option<u8>,
    tries: u8,
    up: bool,
    notice: Option<Notice>,
    ghost ok: { (next ≤ 65536) × ((if up then tries else 0) < 3) },
}
