// A table, and one more command in it.
ghost use Rattle.std.specs.Prelude.{◌≡◌, ℕ, []};
ghost use Rattle.vm.specs.declared.table.add.NotAdded.TheVariants as why;
ghost use Rattle.vm.specs.Commands.{listed_of};
ghost use Rattle.vm.specs.Adding.{Added};

use crate::table::{MOST, Table};
use bytecode::program::Program;
use std::alloc::{AllocFailed, Global};
use std::collections::BTreeMap;

// Why a command was not added.
#[derive(Clone, Copy, PartialEq, Eq, Debug)]
pub enum NotAdded {
    // it has a program
    Taken,
    // 64 commands have one
    Full,
    NoMemory,
}

impl<T: Drop> From<AllocFailed<T>> for NotAdded {
    ghost from_gives = { λ _ r. r ≡ why.NoMemory };

    fn from(_refused: AllocFailed<T>) -> NotAdded {
        NotAdded::NoMemory
    }
}

impl Table {
    pub fn new(heap: Global) -> Table
        ensures { listed_of result ≡ [] }
    {
        Table {
            programs: BTreeMap::new(heap),
        }
    }

    // Gives a command its program.
    pub fn add(&mut self, command: u8, program: Program) -> Result<(), NotAdded>
        ensures { Added self.old command program result self.new }
    {
        if self.find(command).is_some() {
            return Err(NotAdded::Taken);
        }
        if self.programs.len() >= MOST {
            return Err(NotAdded::Full);
        }
        self.programs.insert(command, program)?;
        Ok(())
    }
}
