// The functions on 32-bit words.

ghost use Rattle.std.specs.Prelude.{◌≡◌};
ghost use Rattle.sha256.specs.Words.{CH, MAJ, BSIG0, BSIG1, SSIG0, SSIG1};

#[tactic(auto, using(crate::proofs::Bits::ch_is))]
pub(crate) fn ch(x: u32, y: u32, z: u32) -> u32
    ensures { result ≡ CH x y z }
{
    z ^ (x & (y ^ z))
}

#[tactic(auto, using(crate::proofs::Bits::maj_is))]
pub(crate) fn maj(x: u32, y: u32, z: u32) -> u32
    ensures { result ≡ MAJ x y z }
{
    y ^ ((x ^ y) & (y ^ z))
}

pub(crate) fn bsig0(x: u32) -> u32
    ensures { result ≡ BSIG0 x }
{
    x.rotate_right(2) ^ x.rotate_right(13) ^ x.rotate_right(22)
}

pub(crate) fn bsig1(x: u32) -> u32
    ensures { result ≡ BSIG1 x }
{
    x.rotate_right(6) ^ x.rotate_right(11) ^ x.rotate_right(25)
}

pub(crate) fn ssig0(x: u32) -> u32
    ensures { result ≡ SSIG0 x }
{
    x.rotate_right(7) ^ x.rotate_right(18) ^ (x >> 3)
}

pub(crate) fn ssig1(x: u32) -> u32
    ensures { result ≡ SSIG1 x }
{
    x.rotate_right(17) ^ x.rotate_right(19) ^ (x >> 10)
}
