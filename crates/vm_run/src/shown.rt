// Bytes as they are printed: the first 64, those that are no letters as \xNN.
use std::fmt;

#[derive(Clone, Copy)]
pub struct Shown<'a>(pub &'a [u8]);

impl fmt::Display for Shown<'_> {
    fn fmt<W: fmt::Write>(&self, f: &mut fmt::Formatter<W>) -> fmt::Result {
        for byte in self.0.iter().take(64) {
            match byte {
                b' '..=b'~' if !matches!(byte, b'"' | b'\\') => f.write_char(char::from(*byte))?,
                _ => write!(f, "\\x{byte:02x}")?,
            }
        }
        Ok(())
    }
}
