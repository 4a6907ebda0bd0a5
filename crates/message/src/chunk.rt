// The bytes of one message: at most 1,024, held by value.
ghost use Rattle.std.specs.Prelude.{◌≡◌, ◌≤◌, length};

pub mod bytes;

pub const LARGEST: usize = 1024;

// `len` bytes of `bytes` count.
// Kept: a message is a plain value, copied, with its bytes in fixed memory; a vector of fixed capacity is not `Copy`.
#[derive(Clone, Copy)]
pub struct Chunk {
    len: usize,
    bytes: [u8; 1024],
    ghost ok: { (len ≤ 1024) × (length bytes ≡ 1024) },
}
