// Scripts read: to the end, or to the first bad line.
ghost use Rattle.std.specs.Prelude.{◌≡◌, IfOk};
ghost use Rattle.std.specs.Option.{option_map};
ghost use Rattle.token.specs.Reads.{Reads};
ghost use Rattle.command.specs.Orders.{order_of};
ghost use Rattle.script.specs.Lines.{line_of, script_of};
ghost use Rattle.script.specs.declared.reader.Unreadable.{Unreadable};
ghost use Rattle.std.specs.List.{AllByRecursion};
ghost use Rattle.script.specs.Good.{Good};
ghost use Rattle.script.specs.Answers.{Numbered, orders, Script};

use command::keyword::Keyword;
use command::kinds::Command;
use command::said::said;
use std::alloc::{AllocError, AllocFailed, Global};
use token::fault::Fault;
use token::words::words;

#[derive(Clone, Copy, PartialEq, Eq, Debug)]
pub enum Unreadable {
    // The first bad line, by its number from 1.
    Line(usize),
    NoMemory,
}

impl From<AllocError> for Unreadable {
    ghost from_gives = { λ _ r. r ≡ Unreadable.NoMemory };

    fn from(_e: AllocError) -> Unreadable {
        Unreadable::NoMemory
    }
}

impl<T: Drop> From<AllocFailed<T>> for Unreadable {
    ghost from_gives = { λ _ r. r ≡ Unreadable.NoMemory };

    fn from(_e: AllocFailed<T>) -> Unreadable {
        Unreadable::NoMemory
    }
}

// What the line says: nothing, or a command.
fn line(heap: Global, text: &[u8]) -> Result<Option<Command>, Fault>
    ensures { Reads (option_map order_of) result (line_of text.now) }
{
    let words = words(heap, text)?;
    let Some((first, args)) = words.as_slice().split_first() else {
        return Ok(None);
    };
    let keyword = Keyword::try_from(*first)?;
    Ok(Some(said(heap, keyword, args)?))
}

// The same of the line of that number, from 1.
fn numbered(heap: Global, number: usize, text: &[u8]) -> Result<Option<Command>, Unreadable>
    ensures { Numbered number (line_of text.now) result }
{
    line(heap, text).map_err(|fault| match fault {
        Fault::Bad => Unreadable::Line(number),
        Fault::NoMemory => Unreadable::NoMemory,
    })
}

// The commands of a script, or its first bad line.
pub fn read(heap: Global, text: &[u8]) -> Result<Vec<Command>, Unreadable>
    ensures says { Script result (script_of text.now) }
    ensures good { IfOk result (λ v. AllByRecursion Good (orders v)) }
{
    let mut out = Vec::new(heap);
    for (before, part) in text.split(|b| *b == b'\n').enumerate() {
        out.extend(numbered(heap, before + 1, part)?)?;
    }
    Ok(out)
}
