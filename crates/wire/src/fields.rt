// Each field that there is, written and read.
ghost use Rattle.std.specs.Prelude.{◌≡◌, ◌+◌, ◌^◌, ◌<◌, ◌≤◌, false, [], ◌∷◌, length, MatchOption};
ghost use Rattle.message.specs.Views.{chunk_bytes};
ghost use Rattle.wire.specs.Inside.{bytes32, flag, IsCredit, IsLogin, IsPart, known_byte, known_credit, known_flag, known_login, known_none, known_part};

use crate::field::Field;
use crate::head::Head;
use crate::unwritten::Unwritten;
use message::chunk::Chunk;
use octets::put;

// Nothing.
impl Field for () {
    ghost sendable = { λ _. Unit {0} };

    ghost bytes = { λ _. [] };

    ghost known = { known_none };

    fn write(&self, head: Head, out: &mut [u8]) -> Result<usize, Unwritten> {
        head.write(&[], out)
    }

    fn read(rest: &[u8]) -> Option<()> {
        rest.is_empty().then_some(())
    }
}

impl Field for u8 {
    ghost sendable = { λ b. b < 256 };

    ghost bytes = { λ b. b ∷ [] };

    ghost known = { known_byte };

    fn write(&self, head: Head, out: &mut [u8]) -> Result<usize, Unwritten> {
        head.write(&[*self], out)
    }

    fn read(rest: &[u8]) -> Option<u8> {
        let [b] = rest else {
            return None;
        };
        Some(*b)
    }
}

// 0 or 1.
impl Field for bool {
    ghost sendable = { λ _. Unit {0} };

    ghost bytes = { λ b. flag b ∷ [] };

    ghost known = { known_flag };

    fn write(&self, head: Head, out: &mut [u8]) -> Result<usize, Unwritten> {
        head.write(&[u8::from(*self)], out)
    }

    fn read(rest: &[u8]) -> Option<bool> {
        match rest {
            [0] => Some(false),
            [1] => Some(true),
            _ => None,
        }
    }
}

// A number of bytes that is not 0.
impl Field for u32 {
    ghost sendable = { IsCredit };

    ghost bytes = { bytes32 };

    ghost known = { known_credit };

    fn write(&self, head: Head, out: &mut [u8]) -> Result<usize, Unwritten> {
        if *self == 0 {
            return Err(Unwritten::Unsendable);
        }
        head.write(&self.to_be_bytes(), out)
    }

    fn read(rest: &[u8]) -> Option<u32> {
        let [a, b, c, d] = rest else {
            return None;
        };
        let more = u32::from_be_bytes([*a, *b, *c, *d]);
        (more != 0).then_some(more)
    }
}

// 1 to 1,024 bytes.
impl Field for Chunk {
    ghost sendable = { λ c. IsPart (chunk_bytes c) };

    ghost bytes = { chunk_bytes };

    ghost known = { known_part };

    fn write(&self, head: Head, out: &mut [u8]) -> Result<usize, Unwritten> {
        if self.is_empty() {
            return Err(Unwritten::Unsendable);
        }
        head.write(self.as_slice(), out)
    }

    fn read(rest: &[u8]) -> Option<Chunk> {
        if rest.is_empty() {
            return None;
        }
        Chunk::new(rest)
    }
}

// A user that is not 0, and a proof.
impl Field for (u8, [u8; 32]) {
    ghost sendable = { λ l. IsLogin l.0 l.1 };

    ghost bytes = { λ l. l.0 ∷ l.1 };

    ghost known = { known_login };

    fn write(&self, head: Head, out: &mut [u8]) -> Result<usize, Unwritten> {
        let (user, proof) = *self;
        if user == 0 {
            return Err(Unwritten::Unsendable);
        }
        let mut rest = [user; 33];
        put(&mut rest, 1, &proof);
        head.write(&rest, out)
    }

    fn read(rest: &[u8]) -> Option<(u8, [u8; 32])> {
        let [user, proof @ ..] = rest else {
            return None;
        };
        if *user == 0 {
            return None;
        }
        let proof = <[u8; 32]>::try_from(proof).ok()?;
        Some((*user, proof))
    }
}
