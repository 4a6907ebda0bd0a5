// Bytes as a script has them, between quotes.
ghost use Rattle.std.specs.Prelude.{◌≡◌, ◌<◌, ◌≤◌, length, Some, take};
ghost use Rattle.std.specs.Fmt.{WritesOnOk};
ghost use Rattle.token.specs.Written.{escapes_of, hex_digit, quoted_of};

use std::fmt;

fn hex_digit(value: u8) -> u8
    requires { value < 16 }
    ensures { result ≡ hex_digit value }
{
    if value < 10 {
        b'0' + value
    } else {
        b'a' + (value - 10)
    }
}

// The bytes as they stand between quotes, each itself where it can be, and how many these are.
fn escaped(bytes: &[u8]) -> ([u8; 128], usize)
    requires { length bytes.now ≤ 32 }
    ensures bound { result.1 ≤ 128 }
    ensures value { take result.1 result.0 ≡ escapes_of bytes.now }
{
    let mut out = [0u8; 128];
    let mut len = 0;
    for b in bytes {
        let byte = *b;
        match byte {
            b'"' | b'\\' => {
                out[len] = b'\\';
                out[len + 1] = byte;
                len += 2;
            }
            b' '..=b'~' => {
                out[len] = byte;
                len += 1;
            }
            _ => {
                out[len] = b'\\';
                out[len + 1] = b'x';
                out[len + 2] = hex_digit(byte / 16);
                out[len + 3] = hex_digit(byte % 16);
                len += 4;
            }
        }
    }
    (out, len)
}

// Bytes that are text.
fn write_text<W: fmt::Write>(f: &mut fmt::Formatter<W>, bytes: &[u8]) -> fmt::Result
    ensures { WritesOnOk W.write_str_gives f.old result bytes.now f.new }
{
    let Ok(text) = str::from_utf8(bytes) else {
        return Err(fmt::Error);
    };
    f.write_str(text)
}

#[derive(Clone, Copy)]
pub struct Quoted<'a>(pub &'a [u8]);

impl fmt::Display for Quoted<'_> {
    ghost output = { λ q. Some (quoted_of q.0.now) };

    fn fmt<W: fmt::Write>(&self, f: &mut fmt::Formatter<W>) -> fmt::Result {
        f.write_str("\"")?;
        for piece in self.0.chunks(32) {
            let (text, len) = escaped(piece);
            write_text(f, &text[..len])?;
        }
        f.write_str("\"")
    }
}
