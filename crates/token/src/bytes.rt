// Bytes as a script writes them: `"text"`, or `N*"text"` for N times the text.
ghost use Rattle.std.specs.Prelude.{◌≡◌, Some, vec_items};
ghost use Rattle.token.specs.Bytes.{bytes_of, opened_of, repeat_of};
ghost use Rattle.token.specs.Quotes.{unquote_of};
ghost use Rattle.token.specs.Reads.{Reads};
ghost use Rattle.std.specs.Option.{option_map};
ghost use Rattle.token.specs.declared.quote.Quote.TheVariants.{Body};

use crate::fault::Fault;
use crate::number::number;
use crate::quote::Quote;
use crate::words::cut;
use std::alloc::Global;

pub const LONGEST: usize = 65536;

// What the text says up to its closing quote, which ends it.
fn unquote(heap: Global, text: &[u8]) -> Result<Vec<u8>, Fault>
    ensures { Reads vec_items result (unquote_of Body text.now) }
{
    let mut out = Vec::new(heap);
    let mut state = Quote::Body;
    for b in text {
        let Some((next, byte)) = state.step(*b) else {
            return Err(Fault::Bad);
        };
        if let Some(x) = byte {
            out.push(x)?;
        }
        state = next;
    }
    match state {
        Quote::Closed => Ok(out),
        _ => Err(Fault::Bad),
    }
}

// The bytes, so many times.
#[tactic(auto, unfolding(crate::specs::Bytes::times_of))]
fn several(heap: Global, times: u32, once: &[u8]) -> Result<Vec<u8>, Fault>
    ensures { Reads vec_items result (repeat_of times (Some once.now)) }
{
    let Some(size) = once.len().checked_mul(times as usize) else {
        return Err(Fault::Bad);
    };
    if size > LONGEST {
        return Err(Fault::Bad);
    }
    let mut out = Vec::new(heap);
    for _ in 0..times {
        out.extend_from_slice(once)?;
    }
    Ok(out)
}

// The text up to its closing quote, so many times.
fn repeated(heap: Global, times: u32, text: &[u8]) -> Result<Vec<u8>, Fault>
    ensures { Reads vec_items result (repeat_of times (unquote_of Body text.now)) }
{
    let once = unquote(heap, text)?;
    several(heap, times, once.as_slice())
}

// What stands behind an opening quote.
fn opened(word: &[u8]) -> Option<&[u8]>
    ensures { option_map (λ x. x.now) result ≡ opened_of word.now }
{
    match word {
        [b'"', text @ ..] => Some(text),
        _ => None,
    }
}

// The bytes that the word stands for.
pub fn bytes(heap: Global, word: &[u8]) -> Result<Vec<u8>, Fault>
    ensures { Reads vec_items result (bytes_of word.now) }
{
    if let Some(text) = opened(word) {
        return repeated(heap, 1, text);
    }
    let (count, quoted) = cut(word, b'*').ok_or(Fault::Bad)?;
    let times = number(count, 1, 65535).ok_or(Fault::Bad)?;
    let text = opened(quoted).ok_or(Fault::Bad)?;
    repeated(heap, times, text)
}
