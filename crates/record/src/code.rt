// A record as a block, and back.
ghost use Rattle.std.specs.Prelude.{◌≡◌, length};
ghost use Rattle.record.specs.Records.{makes_sense, encode, guess, decode, ReadsBack, FreshHoldsNone};

use crate::name::Name;
use crate::names::is_name;
use crate::record::Record;
use blocks::Set;
use octets::{equal, put};
use sha256::digest;

// The bytes of one block of a disk.
pub type Block = [u8; 512];

impl Record {
    pub fn makes_sense(&self) -> bool
        ensures { result ≡ makes_sense self.now }
    {
        self.name.size <= 32
            && (is_name(self.name.as_slice())
                && self.blocks.count() == (self.size as usize).div_ceil(512))
    }

    // Kept: a pair of functions named as the promises name them; TryFrom would add an error that says nothing.
    pub fn encode(&self) -> Block
        ensures bytes { result ≡ encode self.now }
        ensures name { length self.now.name.bytes ≡ 32 }
        ensures blocks { length self.now.blocks.bits ≡ 256 }
    {
        let mut out = [0u8; 512];
        put(&mut out, 0, &[self.name.size]);
        put(&mut out, 1, &self.name.bytes);
        put(&mut out, 33, &self.count.to_be_bytes());
        put(&mut out, 41, &self.size.to_be_bytes());
        put(&mut out, 45, &self.blocks.bits);
        let checksum = digest(&out[0..480]);
        put(&mut out, 480, &checksum);
        out
    }

    fn guess(y: &Block) -> Record
        ensures { result ≡ guess y.now }
    {
        let mut bytes = [0u8; 32];
        bytes.copy_from_slice(&y[1..33]);
        let mut bits = [0u8; 256];
        bits.copy_from_slice(&y[45..301]);
        let count = u64::from_be_bytes([y[33], y[34], y[35], y[36], y[37], y[38], y[39], y[40]]);
        let size = u32::from_be_bytes([y[41], y[42], y[43], y[44]]);
        Record {
            name: Name { size: y[0], bytes },
            count,
            size,
            blocks: Set { bits },
        }
    }

    // The record that a block holds, if its checksum fits and it makes sense.
    pub fn decode(y: &Block) -> Option<Record>
        ensures { result ≡ decode y.now }
    {
        let r = Record::guess(y);
        // Kept: a test that returns, since then_some moves the record of a block that holds none too.
        if !r.makes_sense() {
            return None;
        }
        if !equal(&r.encode(), y) {
            return None;
        }
        Some(r)
    }
}

// What is promised of blocks and records, for all of them.
pub fn reads_back()
    ensures { ReadsBack }
{}

pub fn fresh_holds_none()
    ensures { FreshHoldsNone }
{}
