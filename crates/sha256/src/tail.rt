// The padding of a message's last bytes.

ghost use Rattle.std.specs.Prelude.{◌≡◌, ◌+◌, ◌-◌, ◌/◌, ◌%◌, ◌<◌, ◌∷◌, ◌++◌, length, replicate};
ghost use Rattle.sha256.specs.Message.{After, Output, Padding, PaddingFills};

use crate::blocks::{blocks, output};
use crate::rounds::State;
use octets::put;

// `rest`, a bit 1, and zeros.
#[tactic(auto, using(crate::proofs::Paddings::marked_is))]
fn marked(rest: &[u8]) -> [u8; 128]
    requires { length rest.now < 64 }
    ensures { result ≡ rest.now ++ (128 ∷ replicate (127 - length rest.now) 0) }
{
    let mut t = [0u8; 128];
    put(&mut t, 0, rest);
    t[rest.len()] = 0x80;
    t
}

// Where the padding of a last block with `held` bytes ends.
fn padded_end(held: usize) -> usize
    requires { held < 64 }
    ensures { result ≡ held + 9 + (119 - held) % 64 }
{
    if held < 56 { 64 } else { 128 }
}

// The digest of a message of `total` bytes, with the hash value `s` before its last bytes, `rest`.
pub(crate) fn finished(s: State, rest: &[u8], total: u64) -> [u8; 32]
    requires { length rest.now ≡ total % 64 }
    ensures { result ≡ Output (After s (rest.now ++ Padding total) (length (rest.now ++ Padding total) / 64)) }
{
    let mut t = marked(rest);
    let end = padded_end(rest.len());
    put(&mut t, end - 8, &total.wrapping_mul(8).to_be_bytes());
    output(blocks(s, &t[0..end]))
}

// The padding of a message of any length ends with a block, and is as short as that allows.
pub fn padding_fills()
    ensures { PaddingFills }
{}
