// The fields of a message: what an inside holds behind its head.
ghost use Rattle.std.specs.Prelude.{◌≡◌, ℕ, Bool, false, List, MatchOption};
ghost use Rattle.wire.specs.Inside.{inside};
ghost use Rattle.wire.specs.Kinds.{kind_number};
ghost use Rattle.wire.specs.Writes.{Wrote};

use crate::head::Head;
use crate::unwritten::Unwritten;

pub trait Field: Sized {
    // whether it can be sent
    ghost sendable: { Self → Type 0 };

    ghost bytes: { Self → List ℕ };

    // whether some field has these bytes
    ghost known: { List ℕ → Bool };

    fn write(&self, head: Head, out: &mut [u8]) -> Result<usize, Unwritten>
        ensures { Wrote (sendable self.now) (inside (kind_number head.kind) head.channel (bytes self.now)) out.old result out.new };

    fn read(rest: &[u8]) -> Option<Self>
        ensures { MatchOption result (known rest.now ≡ false) (λ x. sendable x × (bytes x ≡ rest.now)) };
}
