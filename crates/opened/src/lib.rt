// Which files a disk holds: the records of its slots, and which blocks they have.
#![tactic(auto)]

ghost use Rattle.std.specs.Prelude.{◌≡◌, ℕ, ◌+◌, ◌*◌, ◌<◌};
ghost use Rattle.blocks.specs.Sets.{has};
ghost use Rattle.record.specs.Names.{name_of};
ghost use Rattle.opened.specs.Opened.{held, other_slot, first_holds, is_of, place, vacant, or_else, target, in_file, record_of};

use blocks::Set;
use disk::disk::Disk;
use record::name::Name;
use record::record::Record;

// How many names may have a file.
pub const NAMES: usize = 64;

// The block at which data begins: the slots of all names stand before it.
pub const DATA: usize = 2 * NAMES;

// Where a put goes: `slot`, the block for its record, and `count`, that of the record that holds.
#[derive(Clone, Copy)]
pub struct Target {
    pub slot: usize,
    pub count: u64,
}

// Of two slots the one with the higher count holds, the first among equals.
fn first_holds(a: &Option<Record>, b: &Option<Record>) -> bool
    ensures { result ≡ first_holds a.now b.now }
{
    a.as_ref()
        .is_some_and(|x| b.as_ref().is_none_or(|y| x.count >= y.count))
}

// Kept: two records apart, since a pair of them is moved as a whole.
// The record that holds in a pair of slots.
pub fn held<D: Disk>(disk: &D, i: usize) -> Option<Record>
    requires { i < 64 }
    ensures { result ≡ held (D.meaning.block disk.now) i }
{
    let a = Record::decode(&disk.read(2 * i));
    let b = Record::decode(&disk.read(2 * i + 1));
    if first_holds(&a, &b) { a } else { b }
}

// The slot of a pair that does not hold.
fn other_slot<D: Disk>(disk: &D, i: usize) -> usize
    requires { i < 64 }
    ensures { result ≡ other_slot (D.meaning.block disk.now) i }
{
    let a = Record::decode(&disk.read(2 * i));
    let b = Record::decode(&disk.read(2 * i + 1));
    if first_holds(&a, &b) {
        2 * i + 1
    } else {
        2 * i
    }
}

#[tactic(auto, using(crate::proofs::Named::names))]
fn has_name(slot: &Option<Record>, name: &Name) -> bool
    ensures { result ≡ is_of (name_of name.now) slot.now }
{
    slot.as_ref().is_some_and(|r| r.name == *name)
}

// The pair of slots whose record has that name.
pub fn find<D: Disk>(disk: &D, name: &Name) -> Option<usize>
    ensures { result ≡ place (D.meaning.block disk.now) (name_of name.now) }
{
    (0..NAMES).find(|i| has_name(&held(disk, *i), name))
}

// The record of a name.
pub fn find_record<D: Disk>(disk: &D, name: &Name) -> Option<Record>
    ensures { result ≡ record_of (D.meaning.block disk.now) (name_of name.now) }
{
    let i = find(disk, name)?;
    held(disk, i)
}

// A pair of slots with no record.
fn find_vacant<D: Disk>(disk: &D) -> Option<usize>
    ensures { result ≡ vacant (D.meaning.block disk.now) }
{
    (0..NAMES).find(|i| held(disk, *i).is_none())
}

// The blocks of all files that hold.
pub fn used<D: Disk>(disk: &D) -> Set
    ensures { (b : ℕ) → b < 2048 → has result.bits b ≡ in_file (D.meaning.block disk.now) b }
{
    let mut all = Set::empty();
    // Kept: a for, since it joins into one set in place.
    for i in 0..NAMES {
        if let Some(r) = held(disk, i) {
            all.join(&r.blocks);
        }
    }
    all
}

fn find_pair<D: Disk>(disk: &D, name: &Name) -> Option<usize>
    ensures { result ≡ or_else (place (D.meaning.block disk.now) (name_of name.now)) (vacant (D.meaning.block disk.now)) }
{
    find(disk, name).or_else(|| find_vacant(disk))
}

// Where a put of that name goes: the slot that does not hold, and the count that holds. A name that has no file takes a pair with no record.
pub fn find_target<D: Disk>(disk: &D, name: &Name) -> Option<Target>
    ensures { result ≡ target (D.meaning.block disk.now) (name_of name.now) }
{
    let i = find_pair(disk, name)?;
    Some(Target {
        slot: other_slot(disk, i),
        count: held(disk, i).map_or(0, |r| r.count),
    })
}
