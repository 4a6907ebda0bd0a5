// What a disk is to the store.
ghost use Rattle.std.specs.Prelude.{◌≡◌, false, is_ok};
ghost use Rattle.disk.specs.Disks.{Meaning, Wrote};

use record::code::Block;

// The machine crashed in the write, or before it: nothing more is written until the disk is opened again.
#[derive(Clone, Copy)]
pub struct Crashed;

pub trait Disk {
    ghost meaning: { Meaning Self };

    fn read(&self, b: usize) -> Block
        ensures { result ≡ meaning.block self.now b };

    fn write(&mut self, b: usize, bytes: &Block) -> Result<(), Crashed>
        ensures after { self.new ≡ meaning.wrote self.old b bytes.now }
        ensures answer { is_ok result ≡ meaning.up self.new }
        ensures blocks { Wrote (meaning.block self.old) b bytes.now (meaning.up self.new) (meaning.block self.new) }
        ensures down { meaning.up self.old ≡ false → self.new ≡ self.old };
}
