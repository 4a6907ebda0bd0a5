// The vectors of ChaCha20 (RFC 8439, sections 2.3.2 and 2.4.2, and appendix A).

use crate::hex::Hex;
use chacha20::apply;
use std::io;

fn show(
    rt: &HostRuntime,
    name: &str,
    key: &[u8; 32],
    counter: u32,
    nonce: &[u8; 12],
    text: &mut [u8],
) -> io::Result<()> {
    match apply(key, counter, nonce, text) {
        Ok(()) => println!(rt; "chacha20 {name} {}", Hex(text)),
        Err(_) => println!(rt; "chacha20 {name} refused {}", Hex(text)),
    }
}

pub const COUNT: &[u8; 32] =
    b"\x00\x01\x02\x03\x04\x05\x06\x07\x08\x09\n\x0b\x0c\x0d\x0e\x0f\x10\x11\x12\x13\x14\x15\x16\x17\x18\x19\x1a\x1b\x1c\x1d\x1e\x1f";

pub const ZERO: &[u8; 32] = &[0; 32];

pub const ONE: &[u8; 32] =
    b"\x00\x00\x00\x00\x00\x00\x00\x00\x00\x00\x00\x00\x00\x00\x00\x00\x00\x00\x00\x00\x00\x00\x00\x00\x00\x00\x00\x00\x00\x00\x00\x01";

pub const NONE: &[u8; 12] = &[0; 12];

pub const TWO: &[u8; 12] = b"\x00\x00\x00\x00\x00\x00\x00\x00\x00\x00\x00\x02";

const SUNSCREEN: [u8; 114] =
    *b"Ladies and Gentlemen of the class of '99: If I could offer you only one tip for the future, sunscreen would be it.";

const IETF: [u8; 375] =
    *b"Any submission to the IETF intended by the Contributor for publication as all or part of an IETF Internet-Draft or RFC and any statement made within the context of an IETF activity is considered an \"IETF Contribution\". Such statements include oral statements in IETF sessions, as well as written and electronic communications made at any time or place, which are addressed to";

const JABBERWOCKY: [u8; 127] =
    *b"'Twas brillig, and the slithy toves\nDid gyre and gimble in the wabe:\nAll mimsy were the borogoves,\nAnd the mome raths outgrabe.";

pub(crate) fn chacha20_vectors(rt: &HostRuntime) -> io::Result<()> {
    show(
        rt,
        "2.3.2",
        COUNT,
        1,
        b"\x00\x00\x00\x09\x00\x00\x00J\x00\x00\x00\x00",
        &mut [0; 64],
    )?;
    show(
        rt,
        "2.4.2",
        COUNT,
        1,
        b"\x00\x00\x00\x00\x00\x00\x00J\x00\x00\x00\x00",
        &mut SUNSCREEN,
    )?;
    show(rt, "A.1.1", ZERO, 0, NONE, &mut [0; 64])?;
    show(rt, "A.1.2", ZERO, 1, NONE, &mut [0; 64])?;
    show(rt, "A.1.3", ONE, 1, NONE, &mut [0; 64])?;
    show(
        rt,
        "A.1.4",
        b"\x00\xff\x00\x00\x00\x00\x00\x00\x00\x00\x00\x00\x00\x00\x00\x00\x00\x00\x00\x00\x00\x00\x00\x00\x00\x00\x00\x00\x00\x00\x00\x00",
        2,
        NONE,
        &mut [0; 64],
    )?;
    show(rt, "A.1.5", ZERO, 0, TWO, &mut [0; 64])?;
    show(rt, "A.2.2", ONE, 1, TWO, &mut IETF)?;
    show(
        rt,
        "A.2.3",
        b"\x1c\x92@\xa5\xebU\xd3\x8a\xf33\x88\x86\x04\xf6\xb5\xf0G9\x17\xc1@+\x80\x09\x9d\xca\\\xbc pu\xc0",
        42,
        TWO,
        &mut JABBERWOCKY,
    )
}

// The last block that the counter has, and a byte more.
pub(crate) fn last_blocks(rt: &HostRuntime) -> io::Result<()> {
    show(rt, "last", ZERO, u32::MAX, NONE, &mut [0; 64])?;
    show(rt, "past", ZERO, u32::MAX, NONE, &mut [0; 65])
}
