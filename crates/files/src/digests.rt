// The digest of a file, from its blocks.
ghost use Rattle.std.specs.Prelude.{◌≡◌, ℕ, ◌+◌, ◌-◌, ◌^◌, ◌<◌, ◌≤◌, min, List, ◌++◌, length, take};
ghost use Rattle.sha256.specs.Message.{SHA256};
ghost use Rattle.sha256.specs.Stream.{Holds};
ghost use Rattle.opened.specs.Opened.{joined};

use blocks::{BLOCKS, Set};
use disk::disk::Disk;
use opened::DATA;
use record::code::Block;
use sha256::Sha256;

// Takes in the first bytes of a block, at most `left`, and says how many are left.
fn take_in(hash: &mut Sha256, bytes: &Block, left: usize) -> usize
    ensures left { result ≡ left - 512 }
    ensures hash { (m : List ℕ) → Holds hash.old m → length m < 2 ^ 60 → Holds hash.new (m ++ take left bytes.now) }
    ensures long { length bytes.now ≡ 512 }
{
    let n = left.min(512);
    let _ = hash.update(&bytes[0..n]);
    left - n
}

// The digest of the first `size` bytes in the blocks of a set.
pub fn digest_of<D: Disk>(disk: &D, blocks: &Set, size: u32) -> [u8; 32]
    ensures { result ≡ SHA256 (take size (joined (D.meaning.block disk.now) blocks.now.bits 2048)) }
{
    let mut hash = Sha256::new();
    let mut left = size as usize;
    // Kept: a for over the numbers, since a hash and what is left go from block to block.
    for k in 0..BLOCKS {
        if blocks.has(k) {
            left = take_in(&mut hash, &disk.read(DATA + k), left);
        }
    }
    hash.finish()
}
