// What a put or a get does when all that it reads has come.
ghost use Rattle.std.specs.Prelude.{◌≡◌, ◌≤◌, Err};
ghost use Rattle.model.specs.Files.{same};
ghost use Rattle.record.specs.Names.{is_name};
ghost use Rattle.files.specs.Moves.{settled, wanted, to_come, to_write, length_phase, place_of, getting, named_as, sized, blocked, committed, closed, went_on, piece_of, came, given_up, released, digest_in};

use crate::digests::digest_of;
use crate::files::Files;
use crate::transfer::{Failure, Phase, Putting, Reading, Which};
use blocks::Set;
use disk::disk::Disk;
use octets::equal;
use record::code::Block;
use record::name::Name;

impl Phase {
    // How many bytes it reads.
    pub fn wanted(&self) -> usize
        ensures bytes { result ≡ wanted self.now }
        ensures most { result ≤ 512 }
    {
        match self {
            Phase::NameLength(_) => 1,
            Phase::Naming(_, n) => *n as usize,
            Phase::Sizing(_) => 4,
            Phase::Block(p) => 512usize.min(p.rest as usize),
            Phase::Digest(_) => 32,
            Phase::Head(_) | Phase::Body(_) | Phase::Tail(_) | Phase::Over(_) => 0,
        }
    }

    // The place in the store's table that it has.
    fn place(&self) -> Option<usize>
        ensures { result ≡ place_of self.now }
    {
        match self {
            Phase::Block(p) | Phase::Digest(p) => Some(p.place),
            Phase::Head(r) | Phase::Body(r) | Phase::Tail(r) => Some(r.place),
            Phase::NameLength(_) | Phase::Naming(_, _) | Phase::Sizing(_) | Phase::Over(_) => None,
        }
    }
}

impl Putting {
    // Its next block, or its digest.
    fn next(self) -> Phase
        ensures { result ≡ to_come self }
    {
        if self.rest == 0 {
            Phase::Digest(self)
        } else {
            Phase::Block(self)
        }
    }
}

impl Reading {
    // Its body, or its digest.
    fn next(self) -> Phase
        ensures { result ≡ to_write self }
    {
        if self.left == 0 {
            Phase::Tail(self)
        } else {
            Phase::Body(self)
        }
    }
}

fn came_length(which: Which, n: u8) -> Result<Phase, Failure>
    ensures { settled result ≡ length_phase which n }
{
    match n {
        1..=32 => Ok(Phase::Naming(which, n)),
        _ => Err(Failure::BadName),
    }
}

// The phase that a step comes to: one that fails is over.
fn settle(step: Result<Phase, Failure>) -> Phase
    ensures { result ≡ settled step }
{
    step.unwrap_or_else(|failure| Phase::Over(Err(failure)))
}

impl<D: Disk> Files<D> {
    // It fails, and its place is free again.
    fn fail(&mut self, place: usize, failure: Failure) -> Result<Phase, Failure>
        ensures phase { result ≡ Err failure }
        ensures store { self.new.store ≡ released D.meaning self.old.store place }
    {
        self.store.release(place);
        Err(failure)
    }

    fn begin_get(&mut self, name: &Name) -> Result<Phase, Failure>
        ensures phase { settled result ≡ (getting D.meaning self.old.store name.now).phase }
        ensures store { self.new.store ≡ (getting D.meaning self.old.store name.now).store }
    {
        let g = self.store.begin_get(name)?;
        Ok(Phase::Head(Reading {
            place: g.place,
            size: g.size,
            from: 0,
            left: g.size,
        }))
    }

    fn came_name(&mut self, which: Which, bytes: &[u8]) -> Result<Phase, Failure>
        ensures phase { settled result ≡ (named_as D.meaning self.old.store which bytes.now (is_name bytes.now)).phase }
        ensures store { self.new.store ≡ (named_as D.meaning self.old.store which bytes.now (is_name bytes.now)).store }
    {
        let name = Name::new(bytes).ok_or(Failure::BadName)?;
        match which {
            Which::IsPut => Ok(Phase::Sizing(name)),
            Which::IsGet => self.begin_get(&name),
        }
    }

    fn came_size(&mut self, name: Name, size: u32) -> Result<Phase, Failure>
        ensures phase { settled result ≡ (sized D.meaning self.old.store name size).phase }
        ensures store { self.new.store ≡ (sized D.meaning self.old.store name size).store }
    {
        let blocks = (size as usize + 511) / 512;
        let place = self.store.begin_put(blocks).ok_or(Failure::NoRoom)?;
        let begun = Putting {
            name,
            size,
            place,
            from: 0,
            rest: size,
        };
        Ok(begun.next())
    }

    fn came_block(&mut self, p: Putting, bytes: &Block) -> Result<Phase, Failure>
        ensures phase { settled result ≡ (blocked D.meaning self.old.store p bytes.now).phase }
        ensures store { self.new.store ≡ (blocked D.meaning self.old.store p bytes.now).store }
    {
        let Ok(from) = self.store.write(p.place, p.from, bytes) else {
            return self.fail(p.place, Failure::NoRoom);
        };
        let rest = p.rest - 512u32.min(p.rest);
        Ok(Putting { from, rest, ..p }.next())
    }

    fn commit(&mut self, p: Putting) -> Result<Phase, Failure>
        ensures phase { settled result ≡ (committed D.meaning self.old.store p).phase }
        ensures store { self.new.store ≡ (committed D.meaning self.old.store p).store }
    {
        match self.store.commit(p.place, &p.name, p.size) {
            Ok(()) => Ok(Phase::Over(Ok(()))),
            Err(_) => self.fail(p.place, Failure::NoRoom),
        }
    }

    // The digest of the first `size` bytes that a put or a get has.
    pub fn digest_at(&self, place: usize, size: u32) -> [u8; 32]
        ensures { result ≡ digest_in D.meaning self.now.store place size }
    {
        let blocks = match self.store.lease(place) {
            Some(lease) => lease.blocks(),
            None => Set::empty(),
        };
        digest_of(&self.store.disk, &blocks, size)
    }

    // Whether a digest is that of all that has come.
    fn fits(&self, p: &Putting, digest: &[u8]) -> bool
        ensures { result ≡ same (digest_in D.meaning self.now.store p.now.place p.now.size) digest.now }
    {
        equal(&self.digest_at(p.place, p.size), digest)
    }

    // Room for the name is looked for before the digest is.
    fn came_digest(&mut self, p: Putting, digest: &[u8]) -> Result<Phase, Failure>
        ensures phase { settled result ≡ (closed D.meaning self.old.store p digest.now).phase }
        ensures store { self.new.store ≡ (closed D.meaning self.old.store p digest.now).store }
    {
        if !self.store.has_room(p.place, &p.name, p.size) {
            return self.fail(p.place, Failure::NoRoom);
        }
        if !self.fits(&p, digest) {
            return self.fail(p.place, Failure::NotWhole);
        }
        self.commit(p)
    }

    fn went_on(&mut self, r: Reading) -> Result<Phase, Failure>
        ensures phase { settled result ≡ (went_on D.meaning self.old.store r (piece_of D.meaning self.old.store r)).phase }
        ensures store { self.new.store ≡ (went_on D.meaning self.old.store r (piece_of D.meaning self.old.store r)).store }
    {
        let Some(piece) = self.store.read(r.place, r.from) else {
            return self.fail(r.place, Failure::NoRoom);
        };
        let from = piece.next;
        let left = r.left - 512u32.min(r.left);
        Ok(Reading { from, left, ..r }.next())
    }

    // What it has under way is given up.
    pub fn give_up(&mut self, phase: Phase)
        ensures { self.new.store ≡ given_up D.meaning self.old.store phase }
    {
        if let Some(place) = phase.place() {
            self.store.release(place);
        }
    }

    // What a phase comes to, or how it fails, when all that it reads has come.
    fn step(&mut self, phase: Phase, have: &Block) -> Result<Phase, Failure>
        ensures phase { settled result ≡ (came D.meaning self.old.store phase have.now).phase }
        ensures store { self.new.store ≡ (came D.meaning self.old.store phase have.now).store }
    {
        match phase {
            Phase::NameLength(w) => came_length(w, have[0]),
            Phase::Naming(w, n) => self.came_name(w, &have[0..n as usize]),
            Phase::Sizing(name) => {
                self.came_size(
                    name,
                    u32::from_be_bytes([have[0], have[1], have[2], have[3]]),
                )
            }
            Phase::Block(p) => self.came_block(p, have),
            Phase::Digest(p) => self.came_digest(p, &have[0..32]),
            Phase::Head(r) => Ok(r.next()),
            Phase::Body(r) => self.went_on(r),
            Phase::Tail(r) => {
                self.store.release(r.place);
                Ok(Phase::Over(Ok(())))
            }
            Phase::Over(outcome) => Ok(Phase::Over(outcome)),
        }
    }

    // All that a phase reads has come.
    pub fn came(&mut self, phase: Phase, have: &Block) -> Phase
        ensures phase { result ≡ (came D.meaning self.old.store phase have.now).phase }
        ensures store { self.new.store ≡ (came D.meaning self.old.store phase have.now).store }
    {
        settle(self.step(phase, have))
    }
}
