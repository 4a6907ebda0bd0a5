// Programs, as rows of actions.
ghost use Rattle.std.specs.Prelude.{◌≡◌};
ghost use Rattle.token.specs.Reads.{Reads};
ghost use Rattle.token.specs.Words.{nows};
ghost use Rattle.command.specs.Orders.{step_of, step_list};
ghost use Rattle.command.specs.Programs.{action_of, limited, steps_of};

use crate::kinds::Action;
use crate::words::whole;
use std::alloc::Global;
use token::bytes::bytes;
use token::fault::Fault;

// The longest row of actions.
pub const LONGEST: usize = 64;

fn action(heap: Global, word: &[u8], argument: &[u8]) -> Result<Action, Fault>
    ensures { Reads step_of result (action_of word.now argument.now) }
{
    match word {
        b"write" => Ok(Action::Write(bytes(heap, argument)?)),
        b"read" => Ok(Action::Read(whole(argument)?)),
        b"end" => Ok(Action::End(whole(argument)?)),
        _ => Err(Fault::Bad),
    }
}

fn actions(heap: Global, words: &[&[u8]]) -> Result<Vec<Action>, Fault>
    ensures { Reads step_list result (steps_of (nows words.now)) }
{
    let mut out = Vec::new(heap);
    let mut rest = words.iter();
    while let Some(word) = rest.next() {
        let action = if *word == b"go".as_slice() {
            Action::Go
        } else {
            let Some(argument) = rest.next() else {
                return Err(Fault::Bad);
            };
            action(heap, word, argument)?
        };
        out.push(action)?;
    }
    Ok(out)
}

// One action or more, and at most the longest row.
pub fn row(heap: Global, words: &[&[u8]]) -> Result<Vec<Action>, Fault>
    ensures { Reads step_list result (limited (steps_of (nows words.now))) }
{
    let actions = actions(heap, words)?;
    if actions.is_empty() || actions.len() > LONGEST {
        return Err(Fault::Bad);
    }
    Ok(actions)
}
