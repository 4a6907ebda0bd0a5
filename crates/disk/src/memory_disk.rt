// Memory as a disk.
ghost use Rattle.std.specs.Prelude.{◌≡◌, ℕ, ◌<◌, true, replicate, IfOk, vec_len};
ghost use Rattle.disk.specs.Memories.{memory_block, memory};

use crate::disk::{Crashed, Disk};
use crate::memory::Memory;
use record::code::Block;
use std::alloc::{AllocError, Global};

impl Memory {
    // A fresh disk of so many blocks, all zeros.
    pub fn fresh(heap: Global, blocks: usize) -> Result<Memory, AllocError>
        ensures { IfOk result (λ d. (d.up ≡ true) × (vec_len d.blocks ≡ blocks) × ((b : ℕ) → memory_block d b ≡ replicate 512 0)) }
    {
        let blocks = vec![in heap; [0u8; 512]; blocks]?;
        Ok(Memory { blocks, up: true })
    }
}

impl Disk for Memory {
    ghost meaning = { memory };

    fn read(&self, b: usize) -> Block {
        self.blocks.get(b).copied().unwrap_or([0; 512])
    }

    fn write(&mut self, b: usize, bytes: &Block) -> Result<(), Crashed> {
        if !self.up {
            return Err(Crashed);
        }
        if b >= self.blocks.len() {
            self.up = false;
            return Err(Crashed);
        }
        self.blocks[b] = *bytes;
        Ok(())
    }
}
