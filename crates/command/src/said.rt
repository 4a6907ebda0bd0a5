// What the words of a line say.
ghost use Rattle.std.specs.Prelude.{◌≡◌};
ghost use Rattle.command.specs.Orders.{order_of};
ghost use Rattle.command.specs.Said.{command_of};
ghost use Rattle.token.specs.Reads.{Reads};
ghost use Rattle.token.specs.Words.{nows};

use crate::keyword::Keyword;
use crate::kinds::{Command, Ends, Way};
use crate::row::row;
use crate::words::{open_or_shut, user_number, whole};
use std::alloc::Global;
use token::bytes::bytes;
use token::fault::Fault;

// The command of a keyword and the words behind it.
pub fn said(heap: Global, keyword: Keyword, args: &[&[u8]]) -> Result<Command, Fault>
    ensures { Reads order_of result (command_of keyword (nows args.now)) }
{
    match (keyword, args) {
        (Keyword::User, [user, open]) => Ok(Command::User {
            user: user_number(user)?,
            open: open_or_shut(open)?,
        }),
        (Keyword::May, [user, command]) => Ok(Command::May {
            user: user_number(user)?,
            command: whole(command)?,
        }),
        (Keyword::Program, [command, actions @ ..]) => Ok(Command::Program {
            command: whole(command)?,
            actions: row(heap, actions)?,
        }),
        (Keyword::Login, [user]) => user_number(user).map(|user| Command::Login { user }),
        (Keyword::Run, [channel, command]) => Ok(Command::Run {
            channel: whole(channel)?,
            command: whole(command)?,
        }),
        (Keyword::Input, [channel, text]) => Ok(Command::Input {
            channel: whole(channel)?,
            bytes: bytes(heap, text)?,
        }),
        (Keyword::Close, [channel]) => whole(channel).map(|channel| Command::Close { channel }),
        (Keyword::Take, [channel, count]) => Ok(Command::Take {
            channel: whole(channel)?,
            count: whole(count)?,
        }),
        (Keyword::Turn, [channel]) => whole(channel).map(|channel| Command::Turn { channel }),
        (Keyword::Round, []) => Ok(Command::Round),
        (Keyword::Arrive, [way]) => Ok(Command::Arrive(Way::try_from(*way)?)),
        (Keyword::Tick, []) => Ok(Command::Tick),
        (Keyword::Cut, [ends]) => Ok(Command::Cut(Ends::try_from(*ends)?)),
        (Keyword::Connect, []) => Ok(Command::Connect),
        _ => Err(Fault::Bad),
    }
}
