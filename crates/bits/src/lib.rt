// Numbers as bits of bytes: the number n is there where bit n % 8 of byte n / 8 is 1.
#![tactic(auto)]

ghost use Rattle.std.specs.Prelude.{◌≡◌, ◌/◌, ◌<◌, length};
ghost use Rattle.bits.specs.Bits.{has, with};

#[tactic(auto, unfolding(crate::specs::Bits::has))]
pub fn has(bytes: &[u8], n: usize) -> bool
    requires { n / 8 < length bytes.now }
    ensures { result ≡ has bytes.now n }
{
    (bytes[n / 8] >> (n % 8)) % 2 == 1
}

pub fn insert(bytes: &mut [u8], n: usize)
    requires { n / 8 < length bytes.old }
    ensures { bytes.new ≡ with bytes.old n }
{
    bytes[n / 8] |= 1 << (n % 8);
}
