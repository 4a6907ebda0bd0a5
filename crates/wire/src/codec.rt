// Messages of one way, as bytes.
ghost use Rattle.std.specs.Prelude.{◌≡◌, ◌≢◌, ◌≤◌, true, false, List, ℕ, length, MatchResult};
ghost use Rattle.wire.specs.Codes.{Code, inside_of, IsSendable};
ghost use Rattle.wire.specs.Writes.{Wrote};
ghost use Rattle.wire.specs.declared.fault.Fault.TheVariants.{Malformed};
ghost use Rattle.wire.specs.Back.{never};

use crate::fault::Fault;
use crate::unwritten::Unwritten;

pub trait Codec: Sized {
    ghost code: { Code Self };

    // Writes a message to the front of a buffer.
    fn write(&self, out: &mut [u8]) -> Result<usize, Unwritten>
        ensures { Wrote (IsSendable code self.now) (inside_of code self.now) out.old result out.new };

    // The message that bytes stand for, where there is one.
    fn read(bytes: &[u8]) -> Result<Self, Fault>
        ensures message { MatchResult result (λ m. IsSendable code m × (inside_of code m ≡ bytes.now)) (λ f. (f ≡ Malformed) × (code.known bytes.now ≡ false)) };

    // a message is short enough to be sealed
    ghost short: { (m : code.Said) → code.sendable m → length (code.written m) ≤ 1027 };

    ghost written_known: { (m : code.Said) → code.sendable m → code.known (code.written m) ≡ true };

    // bytes that are not known are no message
    ghost refused: { (bs : List ℕ) → code.known bs ≡ false → (m : code.Said) → code.sendable m → code.written m ≢ bs } = { never code written_known };
}
