// What every inside begins with.
ghost use Rattle.std.specs.Prelude.{◌≡◌, ◌+◌, ◌<◌, ◌≤◌, ◌++◌, length, drop, MatchResult};
ghost use Rattle.wire.specs.Inside.{inside, IsHeadless};
ghost use Rattle.wire.specs.Kinds.{kind_number};
ghost use Rattle.wire.specs.Writes.{Wrote};
ghost use Rattle.wire.specs.declared.fault.Fault.TheVariants.{Malformed};

use crate::fault::Fault;
use crate::kind::Kind;
use crate::unwritten::Unwritten;
use octets::put;

// The kind of a message, and its channel: 0 where it is of none.
#[derive(Clone, Copy)]
pub struct Head {
    pub kind: Kind,
    pub channel: u16,
}

impl Kind {
    // The head of a message of this kind.
    pub(crate) fn of(self, channel: u16) -> Head
        ensures { result ≡ record { kind = self; channel = channel } }
    {
        Head {
            kind: self,
            channel,
        }
    }
}

impl Head {
    // The head of an inside, and the bytes behind it.
    pub(crate) fn read(bytes: &[u8]) -> Result<(Head, &[u8]), Fault>
        ensures { MatchResult result (λ h. bytes.now ≡ inside (kind_number h.0.kind) h.0.channel h.1.now) (λ f. (f ≡ Malformed) × IsHeadless bytes.now) }
    {
        let [kind, high, low, rest @ ..] = bytes else {
            return Err(Fault::Malformed);
        };
        let head = Head {
            kind: Kind::try_from(*kind)?,
            channel: u16::from_be_bytes([*high, *low]),
        };
        Ok((head, rest))
    }

    // Puts an inside at the front of a buffer, which is left as it is where it is too short.
    pub(crate) fn write(self, rest: &[u8], out: &mut [u8]) -> Result<usize, Unwritten>
        ensures { Wrote (Unit {0}) (inside (kind_number self.kind) self.channel rest.now) out.old result out.new }
    {
        if out.len() < 3 || out.len() - 3 < rest.len() {
            return Err(Unwritten::NoRoom);
        }
        let [high, low] = self.channel.to_be_bytes();
        put(out, 0, &[u8::from(self.kind), high, low]);
        put(out, 3, rest);
        Ok(3 + rest.len())
    }
}
