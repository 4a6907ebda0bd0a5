// The words of a block, put over a text.

ghost use Rattle.std.specs.Prelude.{◌≡◌, [], ◌∷◌, ◌++◌, length, slice_index};
ghost use Rattle.chacha20.specs.Block.{ByteAt};
ghost use Rattle.chacha20.specs.Cipher.{Xored};

use std::simd::prelude::*;

// The words of each lane side by side.
pub(crate) fn transposed(a: u32x4, b: u32x4, c: u32x4, d: u32x4) -> (u32x4, u32x4, u32x4, u32x4)
    ensures first { result.0 ≡ slice_index a 0 ∷ slice_index b 0 ∷ slice_index c 0 ∷ slice_index d 0 ∷ [] }
    ensures second { result.1 ≡ slice_index a 1 ∷ slice_index b 1 ∷ slice_index c 1 ∷ slice_index d 1 ∷ [] }
    ensures third { result.2 ≡ slice_index a 2 ∷ slice_index b 2 ∷ slice_index c 2 ∷ slice_index d 2 ∷ [] }
    ensures fourth { result.3 ≡ slice_index a 3 ∷ slice_index b 3 ∷ slice_index c 3 ∷ slice_index d 3 ∷ [] }
{
    let (e, f) = a.interleave(c);
    let (g, h) = b.interleave(d);
    let (p, q) = e.interleave(g);
    let (r, s) = f.interleave(h);
    (p, q, r, s)
}

// Sixteen bytes of the text with the bytes of four words.
#[tactic(auto, using(crate::proofs::Bytes::xored_is))]
fn xor_words(text: &mut [u8], words: u32x4)
    requires { length text.old ≡ 16 }
    ensures { Xored text.old (ByteAt words) text.new }
{
    let xored = u8x16::from_slice(text) ^ words.to_le_bytes();
    xored.copy_to_slice(text);
}

// A block of the text with the bytes of sixteen words.
pub(crate) fn xor_block(text: &mut [u8], a: u32x4, b: u32x4, c: u32x4, d: u32x4)
    requires { length text.old ≡ 64 }
    ensures { Xored text.old (ByteAt (a ++ (b ++ (c ++ d)))) text.new }
{
    let (front, back) = text.split_at_mut(32);
    let (first, second) = front.split_at_mut(16);
    let (third, fourth) = back.split_at_mut(16);
    xor_words(first, a);
    xor_words(second, b);
    xor_words(third, c);
    xor_words(fourth, d);
}
