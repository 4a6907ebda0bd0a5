// The words that stand at one place of the blocks that are worked on side by side: one block's, or four blocks' in a vector.

ghost use Rattle.std.specs.Prelude.{◌≡◌, ℕ, ◌+◌, ◌*◌, ◌%◌, ◌^◌, ◌<◌, bit_xor, length, slice_index};
ghost use Rattle.chacha20.specs.Cipher.{Xored};
ghost use Rattle.chacha20.specs.Lanes.{LaneByte};
ghost use Rattle.chacha20.specs.Words.{◌⊞◌, ROTL};

use crate::state::State;
use crate::xor::{transposed, xor_block};
use std::simd::prelude::*;

pub trait Word: Copy {
    // How many blocks there are.
    ghost lanes: { ℕ };

    // The word of a block.
    ghost lane: { ℕ → Self → ℕ };

    // The same word in each block.
    fn splat(x: u32) -> Self
        ensures { (l : ℕ) → l < lanes → lane l result ≡ x };

    // A number more in each block than in the one before it.
    fn counted(n: u32) -> Self
        ensures { (l : ℕ) → l < lanes → lane l result ≡ (n + l) % 2 ^ 32 };

    fn sum(self, other: Self) -> Self
        ensures { (l : ℕ) → l < lanes → lane l result ≡ lane l self ⊞ lane l other };

    // `(self ^ other) <<< n`
    fn mixed(self, other: Self, n: u32) -> Self
        requires { (0 < n) × (n < 32) }
        ensures { (l : ℕ) → l < lanes → lane l result ≡ ROTL n (bit_xor (lane l self) (lane l other)) };

    // Puts the blocks over a text that is as long as they are.
    fn xor(blocks: State<Self>, text: &mut [u8])
        requires { length text.old ≡ 64 * lanes }
        ensures { Xored text.old (LaneByte lane blocks) text.new };
}

impl Word for u32 {
    ghost lanes = { 1 };

    ghost lane = { λ l x. x };

    fn splat(x: u32) -> u32 {
        x
    }

    fn counted(n: u32) -> u32 {
        n
    }

    fn sum(self, other: u32) -> u32 {
        self.wrapping_add(other)
    }

    fn mixed(self, other: u32, n: u32) -> u32 {
        (self ^ other).rotate_left(n)
    }

    fn xor(blocks: State<u32>, text: &mut [u8])
        requires { length text.old ≡ 64 }
        ensures { Xored text.old (LaneByte (λ l x. x) blocks) text.new }
    {
        let s = blocks;
        let a = u32x4::from_array([s.x0, s.x1, s.x2, s.x3]);
        let b = u32x4::from_array([s.x4, s.x5, s.x6, s.x7]);
        let c = u32x4::from_array([s.x8, s.x9, s.x10, s.x11]);
        let d = u32x4::from_array([s.x12, s.x13, s.x14, s.x15]);
        xor_block(text, a, b, c, d);
    }
}

impl Word for u32x4 {
    ghost lanes = { 4 };

    ghost lane = { λ l x. slice_index x l };

    fn splat(x: u32) -> u32x4 {
        u32x4::splat(x)
    }

    fn counted(n: u32) -> u32x4 {
        u32x4::from_array([n, n.wrapping_add(1), n.wrapping_add(2), n.wrapping_add(3)])
    }

    fn sum(self, other: u32x4) -> u32x4 {
        self + other
    }

    #[tactic(auto, using(crate::proofs::Vectors::mixed_is))]
    fn mixed(self, other: u32x4, n: u32) -> u32x4 {
        let x = self ^ other;
        (x << u32x4::splat(n)) | (x >> u32x4::splat(32 - n))
    }

    fn xor(blocks: State<u32x4>, text: &mut [u8])
        requires { length text.old ≡ 256 }
        ensures { Xored text.old (LaneByte (λ l x. slice_index x l) blocks) text.new }
    {
        let s = blocks;
        let (a0, a1, a2, a3) = transposed(s.x0, s.x1, s.x2, s.x3);
        let (b0, b1, b2, b3) = transposed(s.x4, s.x5, s.x6, s.x7);
        let (c0, c1, c2, c3) = transposed(s.x8, s.x9, s.x10, s.x11);
        let (d0, d1, d2, d3) = transposed(s.x12, s.x13, s.x14, s.x15);
        let (front, back) = text.split_at_mut(128);
        let (first, second) = front.split_at_mut(64);
        let (third, fourth) = back.split_at_mut(64);
        xor_block(first, a0, b0, c0, d0);
        xor_block(second, a1, b1, c1, d1);
        xor_block(third, a2, b2, c2, d2);
        xor_block(fourth, a3, b3, c3, d3);
    }
}
