// A chunk made from bytes, and read as bytes.
ghost use Rattle.std.specs.Prelude.{◌≡◌, ◌<◌, ◌≤◌, ◌↔◌, IsTrue, [], length, take, drop, MatchOption};
ghost use Rattle.message.specs.Views.{chunk_bytes};

use crate::chunk::{Chunk, LARGEST};
use ring::Ring;

impl Chunk {
    // The bytes, unless they are too many for one message.
    pub fn new(bytes: &[u8]) -> Option<Chunk>
        ensures { MatchOption result (1024 < length bytes.now) (λ c. chunk_bytes c ≡ bytes.now) }
    {
        let len = bytes.len();
        if len > LARGEST {
            return None;
        }
        let mut all = [0; 1024];
        (&mut all[0..len]).copy_from_slice(bytes);
        Some(Chunk::front(all, len))
    }

    // The first bytes of an array.
    pub fn front(bytes: [u8; 1024], len: usize) -> Chunk
        requires { len ≤ 1024 }
        ensures { chunk_bytes result ≡ take len bytes }
    {
        Chunk { len, bytes }
    }

    // The first bytes of a ring, moved out.
    pub fn taken<const N: usize>(bytes: &mut Ring<N>, count: usize) -> Chunk
        requires { (count ≤ 1024) × (count ≤ length bytes.old) }
        ensures first { chunk_bytes result ≡ take count bytes.old }
        ensures left { bytes.new ≡ drop count bytes.old }
    {
        let mut all = [0; LARGEST];
        let len = bytes.take(&mut all[0..count]);
        Chunk::front(all, len)
    }

    pub fn len(&self) -> usize
        ensures { result ≡ length (chunk_bytes self.now) }
    {
        self.len
    }

    pub fn is_empty(&self) -> bool
        ensures { IsTrue result ↔ (chunk_bytes self.now ≡ []) }
    {
        self.len == 0
    }

    pub fn as_slice(&self) -> &[u8]
        ensures { result.now ≡ chunk_bytes self.now }
    {
        &self.bytes[0..self.len]
    }
}
