// A line for each length from 0 to 300: a digest, a tag, and the digest of a ciphertext.

ghost use Rattle.std.specs.Prelude.{◌≤◌, length};

use crate::hex::Hex;
use crate::streams::{COUNT, TWO};
use hmac::{Key, Mac};
use sha256::{Error, Sha256, hash};
use std::{array, io};

// A digest or a tag under way.
trait Hashing {
    fn take(&mut self, part: &[u8]) -> Result<(), Error>;

    fn answer(self) -> [u8; 32];
}

impl Hashing for Sha256 {
    fn take(&mut self, part: &[u8]) -> Result<(), Error> {
        self.update(part)
    }

    fn answer(self) -> [u8; 32] {
        self.finish()
    }
}

impl Hashing for Mac {
    fn take(&mut self, part: &[u8]) -> Result<(), Error> {
        self.update(part)
    }

    fn answer(self) -> [u8; 32] {
        self.finish()
    }
}

// The answer to the whole, if it is that by way of two parts.
fn checked<H: Hashing + Drop>(
    whole: [u8; 32],
    mut hashing: H,
    part: &[u8],
    cut: usize,
) -> Option<[u8; 32]>
    requires { cut ≤ length part.now }
{
    let (first, second) = part.split_at(cut);
    hashing.take(first).ok()?;
    hashing.take(second).ok()?;
    octets::equal(&whole, &hashing.answer()).then_some(whole)
}

fn digest(part: &[u8], cut: usize) -> Option<[u8; 32]>
    requires { cut ≤ length part.now }
{
    checked(hash(part).ok()?, Sha256::new(), part, cut)
}

// The key is the message.
fn tag(part: &[u8], cut: usize) -> Option<[u8; 32]>
    requires { cut ≤ length part.now }
{
    let key = Key::new(part).ok()?;
    checked(key.tag(part).ok()?, key.start(), part, cut)
}

fn cipher(part: &mut [u8], counter: u32) -> Option<[u8; 32]> {
    chacha20::apply(COUNT, counter, TWO, part).ok()?;
    hash(part).ok()
}

fn line(rt: &HostRuntime, part: &mut [u8], n: u32) -> io::Result<()> {
    let cut = part.len() / 3;
    match (digest(part, cut), tag(part, cut), cipher(part, n)) {
        (Some(d), Some(t), Some(c)) => println!(rt; "{n} {} {} {}", Hex(&d), Hex(&t), Hex(&c)),
        _ => println!(rt; "{n} differs or is refused"),
    }
}

fn pattern() -> [u8; 300] {
    array::from_fn(|i| ((7 * i + 3) % 256) as u8)
}

pub(crate) fn lengths(rt: &HostRuntime) -> io::Result<()> {
    for n in 0..301usize {
        let mut part = pattern();
        line(rt, &mut part[0..n], n as u32)?;
    }
    Ok(())
}
