// Bytes gathered from pieces of any size.
ghost use Rattle.std.specs.Prelude.{◌≡◌, ◌+◌, ◌-◌, ◌<◌, ◌≤◌, min, [], ◌++◌, length, take, drop, MatchOption, ◌==◌};
ghost use Rattle.seal.specs.Frames.{size_at};
ghost use Rattle.seal.specs.Ways.{Opens};
ghost use Rattle.stream.specs.Readers.{Gathers, held_of, Short, used_of};

use crate::reader::Reader;
use crate::too_long::TooLong;
use octets::put;
use seal::way::{LARGEST, Way};
use wire::fault::Fault;

impl Reader {
    pub fn new() -> Reader
        ensures { held_of result ≡ [] }
    {
        Reader {
            n: 0,
            buffer: [0; 1100],
        }
    }

    pub fn is_empty(&self) -> bool
        ensures { result ≡ (length (held_of self.now) == 0) }
    {
        self.n == 0
    }

    // Takes bytes of a piece until so many are held; answers how many it took.
    fn fill(&mut self, until: usize, piece: &[u8]) -> usize
        requires { until ≤ 1100 }
        ensures used { result ≡ min (until - length (held_of self.old)) (length piece.now) }
        ensures held { held_of self.new ≡ held_of self.old ++ take result piece.now }
    {
        let used = until.saturating_sub(self.n).min(piece.len());
        put(&mut self.buffer, self.n, &piece[..used]);
        self.n += used;
        used
    }

    fn held(&self) -> &[u8]
        ensures { result.now ≡ held_of self.now }
    {
        &self.buffer[..self.n]
    }

    // How long the message says that its inside is.
    fn size(&self) -> Option<usize>
        ensures { MatchOption result (length (held_of self.now) < 2) (λ n. (2 ≤ length (held_of self.now)) × (n ≡ size_at (held_of self.now))) }
    {
        let [high, low, ..] = self.held() else {
            return None;
        };
        Some(usize::from(u16::from_be_bytes([*high, *low])))
    }

    // Takes as much of a piece as belongs to the message that is under way; answers how much makes it whole, once it is.
    pub fn gather(&mut self, piece: &[u8]) -> Result<Option<usize>, TooLong>
        ensures within { used_of result ≤ length piece.now }
        ensures gathers { Short (held_of self.old) → Gathers (held_of self.old) piece.now result (held_of self.new) }
    {
        let first = self.fill(2, piece);
        let Some(size) = self.size() else {
            return Ok(None);
        };
        if size > LARGEST {
            return Err(TooLong { used: first });
        }
        let more = self.fill(size + 18, &piece[first..]);
        if self.held().len() < size + 18 {
            return Ok(None);
        }
        Ok(Some(first + more))
    }

    // Opens the whole message that is held.
    pub(crate) fn open(&mut self, way: &mut Way) -> Result<usize, Fault>
        ensures opens { Opens way.old (held_of self.old) result way.new (held_of self.new) }
        ensures len { length (held_of self.new) ≡ length (held_of self.old) }
    {
        way.open(&mut self.buffer[0..self.n])
    }

    // Bytes that are held behind the first two.
    pub(crate) fn inside(&self, size: usize) -> &[u8]
        requires { 2 + size ≤ length (held_of self.now) }
        ensures { result.now ≡ take size (drop 2 (held_of self.now)) }
    {
        &self.held()[2..2 + size]
    }

    pub(crate) fn clear(&mut self)
        ensures { held_of self.new ≡ [] }
    {
        self.n = 0;
    }
}
