// The bytes that stand between two quotes, one at a time.
ghost use Rattle.std.specs.Prelude.{◌≡◌, IfSome};
ghost use Rattle.token.specs.Quotes.{hex_of, Small, step_of};

#[derive(Clone, Copy)]
pub enum Quote {
    Body,
    // Behind a backslash.
    Escape,
    // Behind `\\x`, and then behind its first digit, which is below 16.
    High,
    Low(u8),
    // Behind the closing quote.
    Closed,
}

// Kept: the library reads a digit of a char as a u32, and two casts are no plainer.
fn hex(byte: u8) -> Option<u8>
    ensures { result ≡ hex_of byte }
{
    match byte {
        b'0'..=b'9' => Some(byte - b'0'),
        b'a'..=b'f' => Some(byte - b'a' + 10),
        b'A'..=b'F' => Some(byte - b'A' + 10),
        _ => None,
    }
}

impl Quote {
    // Where the next byte stands, and the byte that is told by this one.
    pub fn step(self, byte: u8) -> Option<(Quote, Option<u8>)>
        requires { Small self }
        ensures value { result ≡ step_of self byte }
        ensures small { IfSome result (λ p. Small p.0) }
    {
        match self {
            Quote::Body => match byte {
                b'"' => Some((Quote::Closed, None)),
                b'\\' => Some((Quote::Escape, None)),
                b' '..=b'~' => Some((Quote::Body, Some(byte))),
                _ => None,
            },
            Quote::Escape => match byte {
                b'x' => Some((Quote::High, None)),
                b'"' | b'\\' => Some((Quote::Body, Some(byte))),
                _ => None,
            },
            Quote::High => {
                let high = hex(byte)?;
                Some((Quote::Low(high), None))
            }
            Quote::Low(high) => {
                let low = hex(byte)?;
                Some((Quote::Body, Some(high * 16 + low)))
            }
            Quote::Closed => None,
        }
    }
}
