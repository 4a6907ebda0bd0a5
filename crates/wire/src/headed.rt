// Messages that begin with a head.
ghost use Rattle.std.specs.Prelude.{◌≡◌, ◌≢◌, ℕ, ◌≤◌, true, false, List, length, MatchOption, MatchResult, OnErr};
ghost use Rattle.wire.specs.Codes.{HeadCode, inside_of, is_known, IsSendable, whole_code};
ghost use Rattle.wire.specs.Inside.{inside};
ghost use Rattle.wire.specs.Kinds.{IsNoKind, kind_number};
ghost use Rattle.wire.specs.Writes.{Wrote};
ghost use Rattle.wire.specs.declared.fault.Fault.TheVariants.{Malformed};

use crate::codec::Codec;
use crate::fault::Fault;
use crate::head::Head;
use crate::unwritten::Unwritten;

// A head and the bytes behind it tell the message.
pub trait Headed: Sized {
    ghost code: { HeadCode Self };

    // Writes a message to the front of a buffer.
    fn write(&self, out: &mut [u8]) -> Result<usize, Unwritten>
        ensures { Wrote (IsSendable code self.now) (inside_of code self.now) out.old result out.new };

    // The message with a head and the bytes behind it, where there is one.
    fn from_head(head: Head, rest: &[u8]) -> Option<Self>
        ensures { MatchOption result (code.known (kind_number head.kind) head.channel rest.now ≡ false) (λ m. IsSendable code m × (inside_of code m ≡ inside (kind_number head.kind) head.channel rest.now)) };

    // a message is short enough to be sealed
    ghost short: { (m : code.Said) → code.sendable m → length (code.written m) ≤ 1027 };

    ghost written_known: { (m : code.Said) → code.sendable m → is_known code (code.written m) ≡ true };

    // no message has a kind that there is not
    ghost kinds_known: { (n channel : ℕ) (rest : List ℕ) → IsNoKind n → code.known n channel rest ≡ false };
}

impl<M: Headed> Codec for M {
    ghost code = { whole_code M.Headed.code };

    ghost short = { M.Headed.short };

    ghost written_known = { M.Headed.written_known };

    fn write(&self, out: &mut [u8]) -> Result<usize, Unwritten> {
        Headed::write(self, out)
    }

    fn read(bytes: &[u8]) -> Result<M, Fault>
        ensures message { MatchResult result (λ m. IsSendable M.Headed.code m × (inside_of M.Headed.code m ≡ bytes.now)) (λ f. (f ≡ Malformed) × (is_known M.Headed.code bytes.now ≡ false)) }
        ensures refused { OnErr result ((m : M.Headed.code.Said) → M.Headed.code.sendable m → M.Headed.code.written m ≢ bytes.now) }
    {
        let (head, rest) = Head::read(bytes)?;
        M::from_head(head, rest).ok_or(Fault::Malformed)
    }
}
