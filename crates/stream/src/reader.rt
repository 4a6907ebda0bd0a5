// The bytes of a message that is not whole yet.
ghost use Rattle.std.specs.Prelude.{◌≡◌, ◌≤◌, length};

pub mod gathers;

// `n` bytes of `buffer` are held.
// Kept: a reader is copied with its receiver, as a vector of fixed capacity is not, nor a model that forgets the bytes past `n`.
#[derive(Clone, Copy)]
pub struct Reader {
    n: usize,
    buffer: [u8; 1100],
    ghost ok: { (n ≤ 1100) × (length buffer ≡ 1100) },
}
