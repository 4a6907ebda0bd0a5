// A channel's bytes, in memory that is got once.

// Bytes of input that may wait to be sent.
pub const WAITING: usize = 16384;
// Bytes of output that may wait to be taken.
pub const WINDOW: usize = 8192;

// Input that was not sent yet, and output that was not taken yet.
pub type Buffers = ring::buffers::Buffers<WAITING, WINDOW>;
