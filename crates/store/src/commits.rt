// The two writes of a put: of a block of data, and of its record.
ghost use Rattle.std.specs.Prelude.{◌≡◌, ℕ, ◌-◌, true, List, is_some, is_ok};
ghost use Rattle.blocks.specs.Sets.{has, first};
ghost use Rattle.record.specs.Names.{name_of};
ghost use Rattle.opened.specs.Opened.{joined};
ghost use Rattle.store.specs.Leases.{lease, Sound};
ghost use Rattle.store.specs.Stores.{put_next, wrote_answer, wrote_disk, WroteNext, Kept, ready, commit_answer, commit_disk, commit_leases, Outcome};

use crate::lease::Lease;
use crate::store::{Prepared, Refused, Store, Unwritten};
use blocks::Set;
use disk::disk::Disk;
use opened::{DATA, find_target};
use record::code::Block;
use record::name::Name;
use record::record::Record;

// Writes to the next of the blocks that are lent, from `from` on.
fn write_next<D: Disk>(
    disk: &mut D,
    blocks: &Set,
    from: usize,
    bytes: &Block,
) -> Result<usize, Unwritten>
    ensures disk { disk.new ≡ wrote_disk D.meaning disk.old (first (has blocks.now.bits) (2048 - from) from) bytes.now }
    ensures answer { result ≡ wrote_answer (first (has blocks.now.bits) (2048 - from) from) (D.meaning.up disk.new) }
    ensures blocks { WroteNext (D.meaning.block disk.old) (first (has blocks.now.bits) (2048 - from) from) bytes.now (D.meaning.up disk.new) (D.meaning.block disk.new) }
{
    let b = blocks.next(from).ok_or(Unwritten::NoBlock)?;
    disk.write(DATA + b, bytes)?;
    Ok(b + 1)
}

impl<D: Disk> Store<D> {
    // Writes the next block of a put, from `from` on, and says from where to go on.
    pub fn write(&mut self, t: usize, from: usize, bytes: &Block) -> Result<usize, Unwritten>
        ensures disk { self.new.disk ≡ wrote_disk D.meaning self.old.disk (put_next (lease self.old.leases t) from) bytes.now }
        ensures leases { self.new.leases ≡ self.old.leases }
        ensures answer { result ≡ wrote_answer (put_next (lease self.old.leases t) from) (D.meaning.up self.new.disk) }
        ensures blocks { WroteNext (D.meaning.block self.old.disk) (put_next (lease self.old.leases t) from) bytes.now (D.meaning.up self.new.disk) (D.meaning.block self.new.disk) }
        ensures kept { Sound (D.meaning.block self.old.disk) self.old.leases → Kept (D.meaning.block self.old.disk) self.old.leases t (D.meaning.block self.new.disk) }
    {
        let Some(Lease::Put(blocks)) = self.lease(t) else {
            return Err(Unwritten::NoBlock);
        };
        write_next(&mut self.disk, &blocks, from, bytes)
    }

    // The record that a put is to write, if its name has room and its blocks are as many as its length needs.
    fn prepare(&self, t: usize, name: &Name, size: u32) -> Option<Prepared>
        ensures { result ≡ ready D.meaning self.now t name.now size }
    {
        let Some(Lease::Put(blocks)) = self.lease(t) else {
            return None;
        };
        let target = find_target(&self.disk, name)?;
        let entry = Record {
            name: *name,
            count: target.count.checked_add(1)?,
            size,
            blocks,
        };
        entry.makes_sense().then_some(Prepared {
            slot: target.slot,
            entry,
        })
    }

    // Whether a commit would find room.
    pub fn has_room(&self, t: usize, name: &Name, size: u32) -> bool
        ensures { result ≡ is_some (ready D.meaning self.now t name.now size) }
    {
        self.prepare(t, name, size).is_some()
    }

    // Writes the record of a put into the slot that does not hold: from then on its name has the new file.
    pub fn commit(&mut self, t: usize, name: &Name, size: u32) -> Result<(), Refused>
        ensures disk { self.new.disk ≡ commit_disk D.meaning self.old.disk (ready D.meaning self.old t name.now size) }
        ensures leases { self.new.leases ≡ commit_leases self.old.leases t (ready D.meaning self.old t name.now size) (D.meaning.up self.new.disk) }
        ensures answer { result ≡ commit_answer (ready D.meaning self.old t name.now size) (D.meaning.up self.new.disk) }
        ensures outcome { Outcome (D.meaning.block self.old.disk) (name_of name.now) (ready D.meaning self.old t name.now size) (D.meaning.up self.new.disk) (D.meaning.block self.new.disk) }
        ensures sound { Sound (D.meaning.block self.old.disk) self.old.leases → is_ok result ≡ true → Sound (D.meaning.block self.new.disk) self.new.leases }
        ensures rest { (s : List ℕ) (k : ℕ) → joined (D.meaning.block self.new.disk) s k ≡ joined (D.meaning.block self.old.disk) s k }
    {
        let p = self.prepare(t, name, size).ok_or(Refused::NoRoom)?;
        self.disk.write(p.slot, &p.entry.encode())?;
        self.release(t);
        Ok(())
    }
}
