// What a put or a get is at.
ghost use Rattle.std.specs.Prelude.{◌≡◌};
ghost use Rattle.files.specs.Moves.{unread};

use record::name::Name;
use store::store::Unread;

#[derive(Clone, Copy)]
pub enum Which {
    IsPut,
    IsGet,
}

// How it fails: a bad name, or one that has no file; no room; a digest that does not fit, or input that ends early.
#[derive(Clone, Copy)]
pub enum Failure {
    BadName,
    NoRoom,
    NotWhole,
}

// A get of a name that has no file, or that finds no place.
impl From<Unread> for Failure {
    ghost from_gives = { λ u e. e ≡ unread u };

    fn from(unread: Unread) -> Failure {
        match unread {
            Unread::NoFile => Failure::BadName,
            Unread::NoPlace => Failure::NoRoom,
        }
    }
}

// A put whose length is known. `place`: its place in the table; `from`: where its next block is looked for; `rest`: bytes to come.
#[derive(Clone, Copy)]
pub struct Putting {
    pub name: Name,
    pub size: u32,
    pub place: usize,
    pub from: usize,
    pub rest: u32,
}

// A get. `left`: bytes to write.
#[derive(Clone, Copy)]
pub struct Reading {
    pub place: usize,
    pub size: u32,
    pub from: usize,
    pub left: u32,
}

// It reads the length of the name, then the name; a put then the length of the file, its blocks and its digest;
// a get writes the length, the blocks, and the digest.
#[derive(Clone, Copy)]
pub enum Phase {
    NameLength(Which),
    Naming(Which, u8),
    Sizing(Name),
    Block(Putting),
    Digest(Putting),
    Head(Reading),
    Body(Reading),
    Tail(Reading),
    Over(Result<(), Failure>),
}

// `have`: what has come of what the phase reads, or the digest that a get writes; the first `count` count.
#[derive(Clone, Copy)]
pub struct Transfer {
    pub phase: Phase,
    pub have: [u8; 512],
    pub count: usize,
}
