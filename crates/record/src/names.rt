// Names that can be read, and whether two are one.
ghost use Rattle.std.specs.Prelude.{◌≡◌, if◌then◌else◌, Some, None};
ghost use Rattle.std.specs.Str.{bytes_eq};
ghost use Rattle.std.specs.Ordering.{on};
ghost use Rattle.std.specs.Cmp.Rules.{comparing};
ghost use Rattle.std.proofs.Common.{rules};
ghost use Rattle.model.specs.Put.{is_name_byte};
ghost use Rattle.record.specs.Names.{name_of, is_name, named};

use crate::name::Name;
use octets::put;

fn is_name_byte(b: u8) -> bool
    ensures { result ≡ is_name_byte b }
{
    matches!(b, b'a'..=b'z' | b'0'..=b'9' | b'.')
}

// Whether bytes are a name: 1 to 32 small letters, digits and dots.
pub fn is_name(bytes: &[u8]) -> bool
    ensures { result ≡ is_name bytes.now }
{
    !bytes.is_empty() && (bytes.len() <= 32 && bytes.iter().copied().all(is_name_byte))
}

impl Name {
    // Kept: an Option, since TryFrom would add an error that says nothing.
    // The name of such bytes.
    pub fn new(bytes: &[u8]) -> Option<Name>
        ensures { result ≡ (if is_name bytes.now then Some (named bytes.now) else None) }
    {
        if !is_name(bytes) {
            return None;
        }
        let mut all = [0; 32];
        put(&mut all, 0, bytes);
        Some(Name {
            size: bytes.len() as u8,
            bytes: all,
        })
    }

    pub fn as_slice(&self) -> &[u8]
        ensures { result.now ≡ name_of self.now }
    {
        &self.bytes[0..(self.size as usize).min(32)]
    }
}

// Two names are one where their bytes are, whatever stands behind them.
impl PartialEq for Name {
    ghost eq = { on name_of bytes_eq };

    ghost laws = { Prim.search (comparing, rules) };

    fn eq(&self, other: &Name) -> bool {
        self.as_slice() == other.as_slice()
    }
}
