// A set of block numbers below 2,048: one bit a number.
#![tactic(auto)]

ghost use Rattle.std.specs.Prelude.{◌≡◌, ℕ, ◌-◌, ◌<◌, ◌||◌, length, nat_le, if◌then◌else◌, Some, None};
ghost use Rattle.blocks.specs.Sets.{has, with, none, tally, first, is_free, lowest};

use std::array;

// How many blocks there are.
pub const BLOCKS: usize = 2048;

// Kept: public bytes and no Model, since a record stands on the disk with them as they are.
// The number k is in the set where bit k % 8 of byte k / 8 is 1.
#[derive(Clone, Copy)]
pub struct Set {
    pub bits: [u8; 256],
}

impl Set {
    pub fn empty() -> Set
        ensures { result.bits ≡ none }
    {
        Set { bits: [0; 256] }
    }

    pub fn has(&self, k: usize) -> bool
        requires { k < 2048 }
        ensures { result ≡ has self.now.bits k }
    {
        bits::has(&self.bits, k)
    }

    pub fn insert(&mut self, k: usize)
        requires { k < 2048 }
        ensures { self.new.bits ≡ with self.old.bits k }
    {
        bits::insert(&mut self.bits, k);
    }

    // Takes in all that another set has.
    pub fn join(&mut self, other: &Set)
        ensures { (k : ℕ) → k < 2048 → has self.new.bits k ≡ (has self.old.bits k || has other.now.bits k) }
    {
        self.bits = array::from_fn(|i| self.bits[i] | other.bits[i]);
    }

    // How many numbers it has.
    pub fn count(&self) -> usize
        ensures { result ≡ tally (has self.now.bits) 2048 }
    {
        let mut n = 0;
        // Kept: a for, since a filter branches at each number and takes several times as long.
        for k in 0..BLOCKS {
            if self.has(k) {
                n += 1;
            }
        }
        n
    }

    // The least number that it has from `from` on.
    pub fn next(&self, from: usize) -> Option<usize>
        ensures { result ≡ first (has self.now.bits) (2048 - from) from }
    {
        (from..BLOCKS).find(|k| self.has(*k))
    }

    // The `many` lowest numbers that it has not, if there are so many.
    pub fn lowest_free(&self, many: usize) -> Option<Set>
        ensures { result ≡ (if nat_le many (tally (is_free (has self.now.bits)) 2048) then Some (record { bits = lowest (has self.now.bits) many 2048 }) else None) }
    {
        let mut taken = Set::empty();
        let mut count = 0;
        // Kept: a for, since a fold would move the set at each number.
        for k in (0..BLOCKS).filter(|k| !self.has(*k)).take(many) {
            taken.insert(k);
            count += 1;
        }
        (count == many).then_some(taken)
    }
}
