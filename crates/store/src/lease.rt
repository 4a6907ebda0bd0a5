// What a put or a get under way has.
ghost use Rattle.std.specs.Prelude.{◌≡◌};
ghost use Rattle.store.specs.Leases.{lease_set};

use blocks::Set;

// The blocks that a put writes, or those of the file that a get reads.
#[derive(Clone, Copy)]
pub enum Lease {
    Put(Set),
    Get(Set),
}

impl Lease {
    pub fn blocks(self) -> Set
        ensures { result ≡ lease_set self }
    {
        match self {
            Lease::Put(s) | Lease::Get(s) => s,
        }
    }
}

// The puts and gets under way: at most 16.
pub type Leases = [Option<Lease>; PLACES];

pub const PLACES: usize = 16;
