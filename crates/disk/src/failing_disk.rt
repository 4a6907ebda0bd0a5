// A disk over another that crashes at a chosen write.
ghost use Rattle.std.specs.Prelude.{◌≡◌, true};
ghost use Rattle.disk.specs.Failures.{failing};

use crate::disk::{Crashed, Disk};
use crate::failing::{Failing, Leaves};
use record::code::Block;

// A disk that crashes after so many writes.
pub fn crash_after<D>(disk: D, left: u64, leaves: Leaves) -> Failing<D>
    ensures { result ≡ record { disk = disk; left = left; leaves = leaves; up = true } }
{
    Failing {
        disk,
        left,
        leaves,
        up: true,
    }
}

impl<D: Disk> Disk for Failing<D> {
    ghost meaning = { failing D.meaning };

    fn read(&self, b: usize) -> Block {
        self.disk.read(b)
    }

    fn write(&mut self, b: usize, bytes: &Block) -> Result<(), Crashed> {
        if !self.up {
            return Err(Crashed);
        }
        if self.left > 0 {
            self.left -= 1;
            let r = self.disk.write(b, bytes);
            self.up = r.is_ok();
            return r;
        }
        self.up = false;
        match self.leaves {
            Leaves::Old => {}
            Leaves::New => {
                let _ = self.disk.write(b, bytes);
            }
            Leaves::Zeros => {
                let _ = self.disk.write(b, &[0; 512]);
            }
        }
        Err(Crashed)
    }
}
