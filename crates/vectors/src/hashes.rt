// The vectors of SHA-256 (RFC 6234, section 8.5) and HMAC (RFC 4231, section 4).

ghost use Rattle.std.specs.Prelude.{◌≤◌};

use crate::hex::Hex;
use hmac::hmac;
use sha256::{Error, Sha256, hash};
use std::io;

// Prints the first `size` bytes of an answer, or that there is none.
fn show(
    rt: &HostRuntime,
    name: &str,
    answer: Result<[u8; 32], Error>,
    size: usize,
) -> io::Result<()>
    requires { size ≤ 32 }
{
    match answer {
        Ok(bytes) => println!(rt; "{name} {}", Hex(&bytes[..size])),
        Err(_) => println!(rt; "{name} refused"),
    }
}

// The digest of `part`, `times` times.
fn repeated(part: &[u8], times: usize) -> Result<[u8; 32], Error> {
    let mut hash = Sha256::new();
    for _ in 0..times {
        hash.update(part)?;
    }
    Ok(hash.finish())
}

pub(crate) fn sha256_vectors(rt: &HostRuntime) -> io::Result<()> {
    show(rt, "sha256 1", hash(b"abc"), 32)?;
    show(
        rt,
        "sha256 2",
        hash(b"abcdbcdecdefdefgefghfghighijhijkijkljklmklmnlmnomnopnopq"),
        32,
    )?;
    show(rt, "sha256 3", repeated(&[b'a'; 1000], 1000), 32)?;
    show(rt, "sha256 4", repeated(b"01234567", 80), 32)?;
    show(rt, "sha256 6", hash(b"\x19"), 32)?;
    show(
        rt,
        "sha256 8",
        hash(b"\xe3\xd7%p\xdc\xddx|\xe3\x88z\xb2\xcdhFR"),
        32,
    )?;
    show(rt, "sha256 10", hash(LONG), 32)
}

const LONG: &[u8; 163] =
    b"\x83&uN\"w7/O\xc1+ Rz\xfe\xf0M\x8a\x05iq\xb1\x1a\xd5q#\xa7\xc17v\x00\x00\xd7\xbe\xf6\xf3\xc1\xf7\xa9\x08:\xa3\x9d\x81\x0d\xb3\x10w}\xab\x8b\x1e\x7f\x02\xb8J&\xc7s2_\x8b#t\xdezKZX\xcb\\\\\xf3[\xce\xe6\xfb\x94n[\xd6\x94\xfaY:\x8b\xeb?\x9de\x92\xec\xed\xaaf\xca\x82\xa2\x9d\x0cQ\xbc\xf93b0\xe5\xd7\x84\xe4\xc0\xa4?\x8dy\xa3\n\x16\\\xba\xbeE+wK\x9cq\x09\xa9}\x13\x8f\x12\x92(\x96ol\n\xdc\x10j\xadZ\x9f\xdd0\x82Wi\xb2\xc6q\xafgY\xdf(\xeb9=T\xd6";

pub(crate) fn hmac_vectors(rt: &HostRuntime) -> io::Result<()> {
    show(rt, "hmac 1", hmac(&[0x0b; 20], b"Hi There"), 32)?;
    show(
        rt,
        "hmac 2",
        hmac(b"Jefe", b"what do ya want for nothing?"),
        32,
    )?;
    show(rt, "hmac 3", hmac(&[0xaa; 20], &[0xdd; 50]), 32)?;
    show(
        rt,
        "hmac 4",
        hmac(
            b"\x01\x02\x03\x04\x05\x06\x07\x08\x09\n\x0b\x0c\x0d\x0e\x0f\x10\x11\x12\x13\x14\x15\x16\x17\x18\x19",
            &[0xcd; 50],
        ),
        32,
    )?;
    show(rt, "hmac 5", hmac(&[0x0c; 20], b"Test With Truncation"), 16)?;
    show(
        rt,
        "hmac 6",
        hmac(
            &[0xaa; 131],
            b"Test Using Larger Than Block-Size Key - Hash Key First",
        ),
        32,
    )?;
    show(rt, "hmac 7", hmac(&[0xaa; 131], LARGER), 32)
}

const LARGER: &[u8; 152] =
    b"This is a test using a larger than block-size key and a larger than block-size data. The key needs to be hashed before being used by the HMAC algorithm.";
