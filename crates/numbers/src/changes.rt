// Whether a number was used, and that it is.
ghost use Rattle.std.specs.Prelude.{◌≡◌, ℕ, true, false, IfOk, if◌then◌else◌, nat_eq};
ghost use Rattle.numbers.specs.Has.{has};

use crate::Numbers;
use bits::{has, insert};
use std::alloc::{AllocError, Global};

impl Numbers {
    // No number was used.
    pub fn new(heap: Global) -> Result<Numbers, AllocError>
        ensures { IfOk result (λ x. (n : ℕ) → has x n ≡ false) }
    {
        let bytes = vec![in heap; 0u8; 8192]?;
        Ok(Numbers { bytes })
    }

    #[tactic(auto, unfolding(crate::specs::Has::has))]
    pub fn contains(&self, number: u16) -> bool
        ensures { result ≡ has self.now number }
    {
        has(&self.bytes, number as usize)
    }

    pub fn insert(&mut self, number: u16)
        ensures { (n : ℕ) → has self.new n ≡ (if nat_eq n number then true else has self.old n) }
    {
        insert(self.bytes.as_mut_slice(), number as usize);
    }

    // No number is used any more.
    pub fn clear(&mut self)
        ensures { (n : ℕ) → has self.new n ≡ false }
    {
        self.bytes.as_mut_slice().fill(0);
    }
}
