// Lines cut into words: spaces part words, `#` begins a comment, quotes keep both.
ghost use Rattle.std.specs.Prelude.{◌≡◌, [], ◌++◌, OnOk};
ghost use Rattle.std.specs.Option.{option_map};
ghost use Rattle.token.specs.Reads.{Reads};
ghost use Rattle.token.specs.Words.{after_byte, begun, cut_at, ends_word, listed, nows, pair_now, words_of};

use crate::fault::Fault;
use crate::mode::Mode;
use std::alloc::{AllocError, Global};

// What stands before and after the first `mark`.
pub fn cut(bytes: &[u8], mark: u8) -> Option<(&[u8], &[u8])>
    ensures { option_map pair_now result ≡ cut_at mark bytes.now }
{
    let at = bytes.iter().position(|b| *b == mark)?;
    Some((&bytes[..at], &bytes[at + 1..]))
}

// One word more, unless it is empty.
fn add<'a>(out: &mut Vec<&'a [u8]>, word: &'a [u8]) -> Result<(), AllocError>
    ensures { OnOk result (nows out.new.items ≡ nows out.old.items ++ begun word.now) }
{
    if !word.is_empty() {
        out.push(word)?;
    }
    Ok(())
}

// The words of a line.
pub fn words<'a>(heap: Global, line: &'a [u8]) -> Result<Vec<&'a [u8]>, Fault>
    ensures { Reads listed result (words_of Mode.Plain [] line.now) }
{
    let mut out = Vec::new(heap);
    let mut mode = Mode::Plain;
    let mut start = 0;
    for (i, b) in line.iter().enumerate() {
        if mode.ends_word(*b) {
            add(&mut out, &line[start..i])?;
            if *b == b'#' {
                return Ok(out);
            }
            start = i + 1;
        } else {
            mode = mode.after(*b);
        }
    }
    if mode != Mode::Plain {
        return Err(Fault::Bad);
    }
    add(&mut out, &line[start..])?;
    Ok(out)
}
