// A message sealed in place.
ghost use Rattle.std.specs.Prelude.{◌≡◌, ◌+◌, ◌≤◌, ◌++◌, length, take, drop};
ghost use Rattle.seal.specs.Frames.{frame};
ghost use Rattle.seal.specs.Ways.{Seals, WhereStands};

use crate::unsealed::Unsealed;
use crate::way::turns::after;
use crate::way::{LARGEST, Way};
use octets::put;

impl Way {
    pub(crate) fn seal_as(&self, number: u64, size: usize, buffer: &mut [u8])
        requires { (size ≤ 1082) × (size + 18 ≤ length buffer.old) }
        ensures { WhereStands self.now (λ s _. buffer.new ≡ frame s number (take size (drop 2 buffer.old)) ++ drop (size + 18) buffer.old) }
    {
        put(buffer, 0, &(size as u16).to_be_bytes());
        self.turn(number, &mut buffer[2..2 + size]);
        let tag = self.tag(number, &buffer[0..2 + size]);
        put(buffer, 2 + size, &tag[0..16]);
    }

    // Seals the `size` bytes behind the first two of a buffer, which then begins with the sealed message; answers its length.
    // Kept: a size beside a buffer, since a message is sealed in place and grows by its length and tag.
    pub fn seal(&mut self, size: usize, buffer: &mut [u8]) -> Result<usize, Unsealed>
        ensures { Seals self.old size buffer.old result self.new buffer.new }
    {
        if size > LARGEST {
            return Err(Unsealed::TooLong);
        }
        if buffer.len() < size + 18 {
            return Err(Unsealed::NoRoom);
        }
        let number = self.next.ok_or(Unsealed::Spent)?;
        self.seal_as(number, size, buffer);
        self.next = after(number);
        Ok(size + 18)
    }
}
