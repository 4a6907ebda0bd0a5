// What a side holds at once: at most sixteen, each with memory of its own, all of it got once.
#![tactic(auto)]

ghost use Rattle.std.specs.Prelude.{◌≡◌, ◌+◌, ◌<◌, ◌≤◌, ◌↔◌, IsTrue, List, [], ◌∷◌, ◌++◌, length, replicate, reverse, slice_index_or, IfOk, vec_len, vec_capacity};
ghost use Rattle.std.specs.List.{AllZip, remove};

use ring::buffers::Buffers;
use std::alloc::{AllocError, Global};

pub const MOST: usize = 16;

// Memory for one.
pub trait Memory: Drop + Sized {
    ghost empty: { Self };

    // `Err` where there is not so much.
    fn new(heap: Global) -> Result<Self, AllocError>
        ensures { IfOk result (λ m. m ≡ empty) };
}

impl<const IN: usize, const OUT: usize> Memory for Buffers<IN, OUT> {
    ghost empty = { record { input = []; output = [] } };

    fn new(heap: Global) -> Result<Buffers<IN, OUT>, AllocError> {
        Buffers::new(heap)
    }
}

// `held`: what is held, in the order in which it came; `spare`: memory for as many more as may come.
#[derive(Drop)]
pub struct Table<T, M> {
    pub held: Vec<T>,
    pub spare: Vec<M>,
    ghost room: { (16 ≤ vec_capacity held) × (16 ≤ vec_capacity spare) × (vec_len held + vec_len spare ≡ 16) },
}

impl<T: Drop + Into<M>, M: Memory> Table<T, M> {
    // All memory that it will ever use; `Err` where there is too little.
    pub fn new(heap: Global) -> Result<Table<T, M>, AllocError>
        ensures held { IfOk result (λ t. t.held.items ≡ []) }
        ensures spare { IfOk result (λ t. t.spare.items ≡ replicate 16 M.empty) }
    {
        let held = Vec::with_capacity(heap, MOST)?;
        let mut spare = Vec::with_capacity(heap, MOST)?;
        for _ in 0..MOST {
            spare.push_reserved(M::new(heap)?);
        }
        Ok(Table { held, spare })
    }

    // Whether no more may come.
    pub fn is_full(&self) -> bool
        ensures { IsTrue result ↔ (16 ≤ length self.now.held.items) }
    {
        self.spare.is_empty()
    }

    // One more, made in the memory that was spare last.
    pub fn start<F: FnOnce(M) -> T>(&mut self, make: F)
        requires room { length self.old.held.items < 16 }
        requires callable { F.IsAlwaysCallable make }
        ensures { (memory : M) × (made : T) × F.post make memory made × (self.new.held.items ≡ self.old.held.items ++ made ∷ []) × (self.old.spare.items ≡ self.new.spare.items ++ memory ∷ []) }
    {
        let memory = self.spare.take_last();
        self.held.push_reserved(make(memory));
    }

    // The one at i is not held any more, and what it becomes is spare, behind what was.
    pub fn forget(&mut self, i: usize)
        requires { i < length self.old.held.items }
        ensures held { self.new.held.items ≡ remove self.old.held.items i }
        ensures spare { (gone : T) × (memory : M) × (gone ≡ slice_index_or self.old.held.items i gone) × T.converts gone memory × (self.new.spare.items ≡ self.old.spare.items ++ memory ∷ []) }
    {
        let gone = self.held.remove(i);
        self.spare.push_reserved(gone.into());
    }

    // Nothing is held any more, and all memory is spare: what each became, the last one first.
    pub fn clear(&mut self)
        ensures held { self.new.held.items ≡ [] }
        ensures spare { (back : List M) × AllZip T.converts self.old.held.items back × (self.new.spare.items ≡ self.old.spare.items ++ reverse back) }
    {
        while let Some(gone) = self.held.pop() {
            self.spare.push_reserved(gone.into());
        }
    }
}
