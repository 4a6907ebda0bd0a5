// HMAC with SHA-256 (RFC 2104).
#![tactic(auto)]

ghost use Rattle.std.specs.Prelude.{◌≡◌, ℕ, ◌^◌, ◌<◌, ◌≤◌, List, [], length, MatchResult};
ghost use Rattle.sha256.specs.Stream.{Holds};
ghost use Rattle.hmac.specs.Calls.{Prepared, Tags, Takes, Updated, Whole};
ghost use Rattle.hmac.specs.Hmac.{HMAC, Masked, Padded, Short};

use octets::put;
use sha256::{Error, Sha256};

// A tag under way.
#[derive(Clone, Copy)]
pub struct Mac {
    inner: Sha256,
    outer: Sha256,
}

// A key that is prepared once, and serves any number of messages.
#[derive(Clone, Copy)]
pub struct Key {
    // The tag of a message of which nothing has come.
    begun: Mac,
}

#[tactic(auto, using(crate::proofs::Pads::padded_is))]
fn padded(part: &[u8]) -> [u8; 64]
    requires { length part.now ≤ 64 }
    ensures { result ≡ Padded part.now }
{
    let mut block = [0u8; 64];
    put(&mut block, 0, part);
    block
}

fn key_block(key: &[u8]) -> Result<[u8; 64], Error>
    ensures { MatchResult result (λ b. (length key.now < 2 ^ 61) × (b ≡ Padded (Short key.now))) (λ _. 2 ^ 61 ≤ length key.now) }
{
    if key.len() <= 64 {
        return Ok(padded(key));
    }
    Ok(padded(&sha256::hash(key)?))
}

fn masked(block: &[u8; 64], mask: u8) -> [u8; 64]
    ensures { result ≡ Masked block.now mask }
{
    let mut pad = *block;
    for byte in pad.iter_mut() {
        *byte ^= mask;
    }
    pad
}

// The hash of a message that begins with `pad`, under way.
fn begun(pad: &[u8; 64]) -> Sha256
    ensures { Holds result pad.now }
{
    let mut hash = Sha256::new();
    // 64 bytes are never too many.
    let _ = hash.update(pad);
    hash
}

impl Key {
    pub fn new(key: &[u8]) -> Result<Key, Error>
        ensures { MatchResult result (λ k. (length key.now < 2 ^ 61) × Prepared k key.now) (λ _. 2 ^ 61 ≤ length key.now) }
    {
        let block = key_block(key)?;
        let begun = Mac {
            inner: begun(&masked(&block, 0x36)),
            outer: begun(&masked(&block, 0x5c)),
        };
        Ok(Key { begun })
    }

    pub fn start(&self) -> Mac
        ensures { (key : List ℕ) → Prepared self.now key → Takes result key [] }
    {
        self.begun
    }

    // The tag of a whole message.
    pub fn tag(&self, message: &[u8]) -> Result<[u8; 32], Error>
        ensures { (key : List ℕ) → Prepared self.now key → Tags result key message.now }
    {
        let mut mac = self.start();
        mac.update(message)?;
        Ok(mac.finish())
    }
}

impl Mac {
    // Takes in `part`, or refuses it whole.
    pub fn update(&mut self, part: &[u8]) -> Result<(), Error>
        ensures { Updated self.old part.now result self.new }
    {
        self.inner.update(part)
    }

    // The tag of all that was taken in.
    pub fn finish(self) -> [u8; 32]
        ensures { (key m : List ℕ) → Takes self key m → result ≡ HMAC key m }
    {
        let mut outer = self.outer;
        // 64 bytes and 32 more are never too many.
        let _ = outer.update(&self.inner.finish());
        outer.finish()
    }
}

// The tag of a whole message under a key of any length.
pub fn hmac(key: &[u8], message: &[u8]) -> Result<[u8; 32], Error>
    ensures { Whole result key.now message.now }
{
    Key::new(key)?.tag(message)
}
