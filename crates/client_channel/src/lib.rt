// One channel at the client: its counts, its bytes that wait, what it makes of a reply, and what it sends by itself.
#![tactic(auto)]

pub mod buffers;
pub mod hear;
pub mod held;
pub mod send;
pub mod state;
