// One channel of the server: its numbers, its program's life, and the bytes that wait each way, in memory that is got once.
#![tactic(auto)]

use message::chunk::LARGEST;
use ring::Ring;

pub mod hear;
pub mod make;
pub mod send;
pub mod turn;

// Bytes of input that may wait to be read.
pub const WINDOW: usize = 8192;

// Turns that a program has after the cut.
pub const DRAIN: u8 = 64;

// A channel's numbers. credit: bytes of output that may still be sent; left: turns that its program has after the cut;
// eof: no more input will come; said: its exit was sent.
// Kept: `said` is no third state of the life, since the model tells apart how a program ended and whether that was sent.
#[derive(Clone, Copy)]
pub struct Counts {
    number: u16,
    credit: u64,
    left: u8,
    eof: bool,
    said: bool,
}

// A program's life: it runs, in a state, or it ended, with a status.
// Kept: neither state is a failure, so it is no `Result`.
#[derive(Drop)]
pub enum Life<S> {
    Running(S),
    Ended(u8),
}

// Memory for one channel.
pub type Buffers = ring::buffers::Buffers<WINDOW, LARGEST>;

// input: what came and was not read; output: what was written and not sent.
#[derive(Drop)]
pub struct Channel<S> {
    counts: Counts,
    life: Life<S>,
    input: Ring<WINDOW>,
    output: Ring<LARGEST>,
}
