// A turn of a put or a get.
ghost use Rattle.std.specs.Prelude.{◌≡◌, ◌+◌, ◌-◌, ◌≤◌, ◌++◌, length, replicate};
ghost use Rattle.model.specs.Messages.{Reads, Writes};
ghost use Rattle.programs.specs.Actions.{action};
ghost use Rattle.files.specs.Moves.{started, started_as, filled, have_in, entered, over, turned, writes_of, piece_of, does_at, status};
ghost use Rattle.files.specs.declared.transfer.Which.TheVariants.{IsPut};

use crate::files::Files;
use crate::transfer::{Failure, Phase, Reading, Transfer, Which};
use disk::disk::Disk;
use message::chunk::Chunk;
use octets::put;
use programs::programs::Action;
use record::code::Block;

// A digest at the front of a block.
fn padded(digest: &[u8; 32]) -> Block
    ensures { result ≡ digest.now ++ replicate 480 0 }
{
    let mut have = [0; 512];
    put(&mut have, 0, digest);
    have
}

fn fill(t: Transfer, read: &[u8]) -> Block
    requires { t.count + length read.now ≤ 512 }
    ensures { result ≡ filled t read.now }
{
    let mut have = t.have;
    put(&mut have, t.count, read);
    have
}

impl<D: Disk> Files<D> {
    // A get that comes to its digest works it out.
    fn have_in(&self, phase: Phase) -> Block
        ensures { result ≡ have_in D.meaning self.now.store phase }
    {
        match phase {
            Phase::Tail(r) => padded(&self.digest_at(r.place, r.size)),
            _ => [0; 512],
        }
    }

    // It comes to a phase, and has read nothing of it.
    fn enter(&self, phase: Phase) -> Transfer
        ensures { result ≡ entered D.meaning self.now.store phase }
    {
        Transfer {
            phase,
            have: self.have_in(phase),
            count: 0,
        }
    }

    // It ends early.
    fn end_early(&mut self, t: Transfer) -> Transfer
        ensures state { result ≡ (over D.meaning self.old.store t).state }
        ensures store { self.new.store ≡ (over D.meaning self.old.store t).store }
    {
        self.give_up(t.phase);
        self.enter(Phase::Over(Err(Failure::NotWhole)))
    }

    pub fn turn(&mut self, t: Transfer, read: &[u8], eof: bool) -> Transfer
        ensures state { result ≡ (turned D.meaning self.old.store t read.now eof).state }
        ensures store { self.new.store ≡ (turned D.meaning self.old.store t read.now eof).store }
    {
        if eof {
            return self.end_early(t);
        }
        let want = t.phase.wanted();
        if want < t.count {
            return self.end_early(t);
        }
        if want - t.count < read.len() {
            return self.end_early(t);
        }
        let have = fill(t, read);
        let count = t.count + read.len();
        if count < want {
            return Transfer {
                phase: t.phase,
                have,
                count,
            };
        }
        let phase = self.came(t.phase, &have);
        self.enter(phase)
    }

    fn write_body(&self, r: Reading) -> Action
        ensures { action result ≡ writes_of D.meaning r.left (piece_of D.meaning self.now.store r) }
    {
        match self.store.read(r.place, r.from) {
            Some(piece) => written(&piece.bytes[0..512usize.min(r.left as usize)]),
            None => Action::End(status_of(Err(Failure::NoRoom))),
        }
    }

    pub fn ask(&self, t: &Transfer) -> Action
        ensures { action result ≡ does_at D.meaning self.now.store t.now.phase t.now.have t.now.count }
    {
        match t.phase {
            Phase::Head(r) => written(&r.size.to_be_bytes()),
            Phase::Body(r) => self.write_body(r),
            Phase::Tail(_) => written(&t.have[0..32]),
            Phase::Over(outcome) => Action::End(status_of(outcome)),
            _ => read_rest(t.phase.wanted(), t.count),
        }
    }
}

fn started(which: Which) -> Transfer
    ensures { result ≡ started which }
{
    Transfer {
        phase: Phase::NameLength(which),
        have: [0; 512],
        count: 0,
    }
}

// The command 254 is put, any other is get.
pub fn start(command: u8) -> Transfer
    ensures { result ≡ started_as command }
{
    if command == 254 {
        started(Which::IsPut)
    } else {
        started(Which::IsGet)
    }
}

fn written(bytes: &[u8]) -> Action
    requires { length bytes.now ≤ 1024 }
    ensures { action result ≡ Writes bytes.now }
{
    match Chunk::new(bytes) {
        Some(c) => Action::Write(c),
        None => unreachable(),
    }
}

fn status_of(outcome: Result<(), Failure>) -> u16
    ensures { result ≡ status outcome }
{
    match outcome {
        Ok(()) => 0,
        Err(Failure::BadName) => 9,
        Err(Failure::NoRoom) => 10,
        Err(Failure::NotWhole) => 11,
    }
}

fn read_rest(want: usize, count: usize) -> Action
    requires { want ≤ 512 }
    ensures { action result ≡ Reads (want - count) }
{
    Action::Read(want.saturating_sub(count) as u16)
}
