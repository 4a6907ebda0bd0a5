// Beginning and ending puts and gets, and their blocks.
ghost use Rattle.std.specs.Prelude.{◌≡◌, ℕ, ◌+◌, ◌<◌, replicate, None, Some, IfSome, slice_set};
ghost use Rattle.blocks.specs.Sets.{has, tally};
ghost use Rattle.record.specs.Names.{name_of};
ghost use Rattle.opened.specs.Opened.{record_of};
ghost use Rattle.store.specs.Leases.{lease, in_lease, used, unused, Sound, put_place, put_set, with_lease};
ghost use Rattle.store.specs.Stores.{get_next, piece_at, get_answer, get_leases};
ghost use Rattle.store.specs.declared.lease.Lease.TheVariants.{Put};

use crate::lease::{Lease, PLACES};
use crate::store::{Getting, Piece, Store, Unread};
use blocks::{BLOCKS, Set};
use disk::disk::Disk;
use opened::{DATA, find_record, used};
use record::name::Name;

impl<D: Disk> Store<D> {
    // Opens a disk, whatever stands on it: nothing is under way.
    pub fn open(disk: D) -> Store<D>
        ensures disk { result.disk ≡ disk }
        ensures leases { result.leases ≡ replicate 16 None }
        ensures sound { Sound (D.meaning.block disk) result.leases }
    {
        Store {
            disk,
            leases: [None; PLACES],
        }
    }

    // What is at a place, and nothing past the table's end.
    pub fn lease(&self, t: usize) -> Option<Lease>
        ensures { result ≡ lease self.now.leases t }
    {
        // Kept: a match, since flatten moves the lease once more.
        match self.leases.get(t) {
            Some(lease) => *lease,
            None => None,
        }
    }

    // A place with nothing under way.
    pub fn unused(&self) -> Option<usize>
        ensures place { result ≡ unused self.now.leases }
        ensures within { IfSome result (λ t. t < 16) }
    {
        self.leases.iter().position(|lease| lease.is_none())
    }

    // All blocks that are under way.
    pub fn leased(&self) -> Set
        ensures { (b : ℕ) → b < 2048 → has result.bits b ≡ in_lease self.now.leases b }
    {
        let mut all = Set::empty();
        for place in &self.leases {
            if let Some(lease) = place {
                all.join(&lease.blocks());
            }
        }
        all
    }

    fn used(&self) -> Set
        ensures { (b : ℕ) → b < 2048 → has result.bits b ≡ used (D.meaning.block self.now.disk) self.now.leases b }
    {
        let mut all = used(&self.disk);
        all.join(&self.leased());
        all
    }

    // How many blocks are free: all but those that a file that holds, or a put or get under way, has.
    pub fn free(&self) -> usize
        ensures { result + tally (used (D.meaning.block self.now.disk) self.now.leases) 2048 ≡ 2048 }
    {
        BLOCKS - self.used().count()
    }

    // Takes the lowest free blocks for a put, if there are so many and a place is left.
    pub fn begin_put(&mut self, many: usize) -> Option<usize>
        ensures place { result ≡ put_place (D.meaning.block self.old.disk) self.old.leases many }
        ensures disk { self.new.disk ≡ self.old.disk }
        ensures leases { self.new.leases ≡ with_lease self.old.leases result (Some (Put (put_set (D.meaning.block self.old.disk) self.old.leases many))) }
        ensures sound { Sound (D.meaning.block self.old.disk) self.old.leases → Sound (D.meaning.block self.old.disk) self.new.leases }
    {
        let t = self.unused()?;
        let blocks = self.used().lowest_free(many)?;
        self.leases[t] = Some(Lease::Put(blocks));
        Some(t)
    }

    // Keeps the blocks of the file that a name has now, for a get.
    pub fn begin_get(&mut self, name: &Name) -> Result<Getting, Unread>
        ensures answer { result ≡ get_answer (record_of (D.meaning.block self.old.disk) (name_of name.now)) (unused self.old.leases) }
        ensures disk { self.new.disk ≡ self.old.disk }
        ensures leases { self.new.leases ≡ get_leases self.old.leases (record_of (D.meaning.block self.old.disk) (name_of name.now)) (unused self.old.leases) }
        ensures sound { Sound (D.meaning.block self.old.disk) self.old.leases → Sound (D.meaning.block self.old.disk) self.new.leases }
    {
        let r = find_record(&self.disk, name).ok_or(Unread::NoFile)?;
        let t = self.unused().ok_or(Unread::NoPlace)?;
        self.leases[t] = Some(Lease::Get(r.blocks));
        Ok(Getting {
            place: t,
            size: r.size,
        })
    }

    // Ends a put that gives up, or a get: its blocks are with it no more.
    pub fn release(&mut self, t: usize)
        ensures disk { self.new.disk ≡ self.old.disk }
        ensures leases { self.new.leases ≡ slice_set self.old.leases t None }
        ensures sound { Sound (D.meaning.block self.old.disk) self.old.leases → Sound (D.meaning.block self.old.disk) self.new.leases }
    {
        // Kept: a write by index, since after get_mut a proof knows no element of the array.
        if t < PLACES {
            self.leases[t] = None;
        }
    }

    // The next block of a get, from `from` on.
    pub fn read(&self, t: usize, from: usize) -> Option<Piece>
        ensures { result ≡ piece_at (D.meaning.block self.now.disk) (get_next (lease self.now.leases t) from) }
    {
        let Some(Lease::Get(blocks)) = self.lease(t) else {
            return None;
        };
        let b = blocks.next(from)?;
        Some(Piece {
            next: b + 1,
            bytes: self.disk.read(DATA + b),
        })
    }
}
