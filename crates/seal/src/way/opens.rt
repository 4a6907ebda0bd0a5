// A message opened in place.
ghost use Rattle.std.specs.Prelude.{◌≡◌, ◌+◌, length, MatchOption};
ghost use Rattle.seal.specs.Frames.{Whole as IsWhole};
ghost use Rattle.seal.specs.Ways.{Opens};

use crate::way::turns::after;
use crate::way::{LARGEST, Way};
use wire::fault::Fault;

// The length of a whole message's inside.
fn inside(frame: &[u8]) -> Option<usize>
    ensures { MatchOption result (IsWhole frame.now → ⊥) (λ n. IsWhole frame.now × (n + 18 ≡ length frame.now)) }
{
    let [high, low, ..] = frame else {
        return None;
    };
    let size = usize::from(u16::from_be_bytes([*high, *low]));
    (size <= LARGEST && frame.len() == size + 18).then_some(size)
}

impl Way {
    // Opens a whole message, whose inside then stands behind its first two bytes; answers the inside's length.
    pub fn open(&mut self, frame: &mut [u8]) -> Result<usize, Fault>
        ensures { Opens self.old frame.old result self.new frame.new }
    {
        let size = inside(frame).ok_or(Fault::Length)?;
        let number = self.next.ok_or(Fault::Tag)?;
        if !self.fits(number, frame) {
            return Err(Fault::Tag);
        }
        self.turn(number, &mut frame[2..2 + size]);
        self.next = after(number);
        Ok(size)
    }
}
