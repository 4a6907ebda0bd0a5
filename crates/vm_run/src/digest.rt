// A running digest of bytes (FNV-1a, 32 bits): enough to tell two runs apart.
use std::fmt;

#[derive(Clone, Copy)]
pub struct Digest(u32);

impl Digest {
    pub fn new() -> Digest {
        Digest(2166136261)
    }

    pub fn feed(&mut self, bytes: &[u8]) {
        self.0 = bytes.iter().fold(self.0, |digest, byte| {
            (digest ^ u32::from(*byte)).wrapping_mul(16777619)
        });
    }

    pub fn word(&mut self, n: u32) {
        self.feed(&n.to_be_bytes());
    }
}

impl fmt::Display for Digest {
    fn fmt<W: fmt::Write>(&self, f: &mut fmt::Formatter<W>) -> fmt::Result {
        write!(f, "{:08x}", self.0)
    }
}
