// A hash over a message that comes in parts.

ghost use Rattle.std.specs.Prelude.{◌≡◌, ℕ, ◌^◌, ◌<◌, ◌≤◌, List, [], length, MatchResult};
ghost use Rattle.sha256.specs.Message.{SHA256};
ghost use Rattle.sha256.specs.Stream.{Holds, Updated};

use crate::blocks::blocks;
use crate::rounds::State;
use crate::tail::finished;
use octets::put;

const START: State = State {
    a: 0x6a09_e667,
    b: 0xbb67_ae85,
    c: 0x3c6e_f372,
    d: 0xa54f_f53a,
    e: 0x510e_527f,
    f: 0x9b05_688c,
    g: 0x1f83_d9ab,
    h: 0x5be0_cd19,
};

// A message has fewer bytes than this, so that its length in bits fits 64 bits.
const LIMIT: u64 = 1 << 61;

#[derive(Clone, Copy)]
pub enum Error {
    // The message would have 2^61 bytes or more.
    TooLong,
}

#[derive(Clone, Copy)]
pub struct Sha256 {
    state: State,
    // The bytes behind the last whole block: the first `total % 64`.
    // Kept: an array beside its count, since a hash is Copy and allocates nothing.
    buffer: [u8; 64],
    total: u64,
}

impl Sha256 {
    #[tactic(auto, unfolding(crate::specs::Message::After))]
    pub fn new() -> Sha256
        ensures { Holds result [] }
    {
        Sha256 {
            state: START,
            buffer: [0; 64],
            total: 0,
        }
    }

    // Takes in `part`, or refuses it whole.
    pub fn update(&mut self, part: &[u8]) -> Result<(), Error>
        ensures { Updated self.old part.now result self.new }
    {
        let total = self.total.saturating_add(part.len() as u64);
        if total >= LIMIT {
            return Err(Error::TooLong);
        }
        let held = (self.total % 64) as usize;
        self.total = total;
        if part.len() < 64 - held {
            put(&mut self.buffer, held, part);
            return Ok(());
        }
        let (first, rest) = part.split_at(64 - held);
        put(&mut self.buffer, held, first);
        self.state = blocks(blocks(self.state, &self.buffer), rest);
        put(&mut self.buffer, 0, rest.chunks_exact(64).remainder());
        Ok(())
    }

    // The digest of all that was taken in.
    pub fn finish(self) -> [u8; 32]
        ensures { (m : List ℕ) → Holds self m → result ≡ SHA256 m }
    {
        let held = (self.total % 64) as usize;
        finished(self.state, &self.buffer[0..held], self.total)
    }
}

// The digest of a message that is known to be short enough.
pub fn digest(message: &[u8]) -> [u8; 32]
    requires { length message.now < 2 ^ 61 }
    ensures { result ≡ SHA256 message.now }
{
    let rest = message.chunks_exact(64).remainder();
    finished(blocks(START, message), rest, message.len() as u64)
}

// The digest of any message, or a refusal.
pub fn hash(message: &[u8]) -> Result<[u8; 32], Error>
    ensures { MatchResult result (λ d. (length message.now < 2 ^ 61) × (d ≡ SHA256 message.now)) (λ _. 2 ^ 61 ≤ length message.now) }
{
    if message.len() as u64 >= LIMIT {
        return Err(Error::TooLong);
    }
    Ok(digest(message))
}
