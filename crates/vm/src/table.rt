// The programs of up to 64 commands.
ghost use Rattle.std.specs.Prelude.{◌≤◌};
ghost use Rattle.std.specs.BTreeMap.{btree_map_len};

use bytecode::program::Program;
use std::collections::BTreeMap;

pub mod add;
pub mod lookup;

pub const MOST: usize = 64;

#[derive(Drop)]
pub struct Table {
    programs: BTreeMap<u8, Program>,
    ghost ok: { btree_map_len programs ≤ 64 },
}
