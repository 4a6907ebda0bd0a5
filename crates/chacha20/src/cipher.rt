// Encryption in place, which is decryption too.

ghost use Rattle.std.specs.Prelude.{◌≡◌, ◌+◌, ◌^◌, ◌<◌, ◌≤◌, length, MatchResult};
ghost use Rattle.chacha20.specs.Cipher.{Blocks, ChaCha20, Undoes, Xored};
ghost use Rattle.chacha20.specs.Lanes.{Keyed};

use crate::state::State;
use crate::stream::{part, whole};
use std::simd::prelude::*;

#[derive(Clone, Copy)]
pub enum Error {
    // The text is longer than the counter has blocks left.
    CounterWraps,
}

// The last bytes of the text.
fn last_blocks(text: &mut [u8], s: State<u32>)
    requires { length text.old ≤ 256 }
    ensures { Xored text.old (Keyed s) text.new }
{
    if text.len() > 64 {
        part::<u32x4, 256>(text, s);
    } else {
        part::<u32, 64>(text, s);
    }
}

// The whole text, from the block of `s` on.
fn all_blocks(text: &mut [u8], s: State<u32>)
    ensures { Xored text.old (Keyed s) text.new }
{
    let fours = text.len() / 256;
    // Kept: an index, since of a slice that `chunks_exact_mut` lent out a proof knows the length alone.
    for i in 0..fours {
        whole::<u32x4>(&mut text[256 * i..256 * i + 256], s.advanced(4 * i));
    }
    last_blocks(&mut text[256 * fours..], s.advanced(4 * fours));
}

// Encrypts the text in place, with the blocks `counter`, `counter + 1`, and so on; or refuses, and leaves it as it is.
#[tactic(auto, using(crate::proofs::Texts::cipher_is))]
pub fn apply(key: &[u8; 32], counter: u32, nonce: &[u8; 12], text: &mut [u8]) -> Result<(), Error>
    ensures { MatchResult result (λ _. (counter + Blocks (length text.old) ≤ 2 ^ 32) × (text.new ≡ ChaCha20 key.now counter nonce.now text.old)) (λ _. (2 ^ 32 < counter + Blocks (length text.old)) × (text.new ≡ text.old)) }
{
    if text.len().div_ceil(64) > (1 << 32) - counter as usize {
        return Err(Error::CounterWraps);
    }
    all_blocks(text, State::new(key, counter, nonce));
    Ok(())
}

// Encryption with the same key, counter and nonce gives the text back.
#[tactic(auto, using(crate::proofs::Texts::twice))]
pub fn undoes()
    ensures { Undoes }
{}
