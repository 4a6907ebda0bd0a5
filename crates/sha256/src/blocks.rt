// From bytes to words and back, and the hash value after whole blocks.

ghost use Rattle.std.specs.Prelude.{◌≡◌, ◌+◌, ◌/◌, ◌≤◌, length};
ghost use Rattle.sha256.specs.Message.{After, Be32, Output, Words};

use crate::rounds::{State, compress};
use octets::put;

fn be32(b: &[u8], i: usize) -> u32
    requires { i + 4 ≤ length b.now }
    ensures { result ≡ Be32 b.now i }
{
    u32::from_be_bytes([b[i], b[i + 1], b[i + 2], b[i + 3]])
}

fn words(b: &[u8]) -> [u32; 16]
    requires { length b.now ≡ 64 }
    ensures { result ≡ Words b.now }
{
    let mut w = [0u32; 16];
    for t in 0..16usize {
        w[t] = be32(b, 4 * t);
    }
    w
}

// The hash value `h` after the whole blocks of `p`.
pub(crate) fn blocks(h: State, p: &[u8]) -> State
    ensures { result ≡ After h p.now (length p.now / 64) }
{
    let mut s = h;
    for block in p.chunks_exact(64) {
        s = compress(s, &words(block));
    }
    s
}

#[tactic(auto, unfolding(crate::specs::Message::Output))]
pub(crate) fn output(s: State) -> [u8; 32]
    ensures { result ≡ Output s }
{
    let mut out = [0u8; 32];
    put(&mut out, 0, &s.a.to_be_bytes());
    put(&mut out, 4, &s.b.to_be_bytes());
    put(&mut out, 8, &s.c.to_be_bytes());
    put(&mut out, 12, &s.d.to_be_bytes());
    put(&mut out, 16, &s.e.to_be_bytes());
    put(&mut out, 20, &s.f.to_be_bytes());
    put(&mut out, 24, &s.g.to_be_bytes());
    put(&mut out, 28, &s.h.to_be_bytes());
    out
}
