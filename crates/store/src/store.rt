// What the store is made of, and what its calls answer.
ghost use Rattle.std.specs.Prelude.{◌≡◌};
ghost use Rattle.store.specs.declared.store.Unwritten.TheVariants.{Lost};
ghost use Rattle.store.specs.declared.store.Refused.TheVariants as refused;

use crate::lease::Leases;
use disk::disk::Crashed;
use record::code::Block;
use record::record::Record;

// Files on a disk, and the puts and gets under way.
#[derive(Drop)]
pub struct Store<D> {
    pub disk: D,
    pub leases: Leases,
}

// The record that a put is to write, and into which block.
#[derive(Clone, Copy)]
pub struct Prepared {
    pub slot: usize,
    pub entry: Record,
}

// A block of a file, and from where the next one is looked for.
#[derive(Clone, Copy)]
pub struct Piece {
    pub next: usize,
    pub bytes: Block,
}

// A get that has begun: its place in the table, and the file's bytes.
#[derive(Clone, Copy)]
pub struct Getting {
    pub place: usize,
    pub size: u32,
}

#[derive(Clone, Copy)]
pub enum Unread {
    NoFile,
    NoPlace,
}

#[derive(Clone, Copy)]
pub enum Unwritten {
    // It is no put, or all its blocks are written.
    NoBlock,
    // The machine crashed.
    Lost,
}

#[derive(Clone, Copy)]
pub enum Refused {
    NoRoom,
    Crashed,
}

impl From<Crashed> for Unwritten {
    ghost from_gives = { λ _ e. e ≡ Lost };

    fn from(_crashed: Crashed) -> Unwritten {
        Unwritten::Lost
    }
}

impl From<Crashed> for Refused {
    ghost from_gives = { λ _ e. e ≡ refused.Crashed };

    fn from(_crashed: Crashed) -> Refused {
        Refused::Crashed
    }
}
