// Commands as a script has them.
ghost use Rattle.std.specs.Prelude.{map, Some};
ghost use Rattle.token.specs.Written.{spaced_of, unwords_of};
ghost use Rattle.command.specs.Orders.{order_of, step_of};
ghost use Rattle.command.specs.Written.{ends_word, line_for, step_words, steps_words, way_word};

use crate::kinds::{Action, Command, Ends, Way};
use std::fmt;
use token::written::Quoted;

impl fmt::Display for Way {
    ghost output = { λ w. Some (way_word w) };

    fn fmt<W: fmt::Write>(&self, f: &mut fmt::Formatter<W>) -> fmt::Result {
        match self {
            Way::There => write!(f, "there"),
            Way::Here => write!(f, "here"),
            Way::All => write!(f, "all"),
        }
    }
}

impl fmt::Display for Ends {
    ghost output = { λ e. Some (ends_word e) };

    fn fmt<W: fmt::Write>(&self, f: &mut fmt::Formatter<W>) -> fmt::Result {
        match self {
            Ends::Here => write!(f, "here"),
            Ends::Far => write!(f, "far"),
            Ends::Both => write!(f, "both"),
        }
    }
}

impl fmt::Display for Action {
    ghost output = { λ a. Some (unwords_of (step_words (step_of a))) };

    fn fmt<W: fmt::Write>(&self, f: &mut fmt::Formatter<W>) -> fmt::Result {
        match self {
            Action::Read(count) => write!(f, "read {count}"),
            Action::Write(bytes) => write!(f, "write {}", Quoted(bytes.as_slice())),
            Action::End(status) => write!(f, "end {status}"),
            Action::Go => write!(f, "go"),
        }
    }
}

// Actions, each behind a space.
#[derive(Clone, Copy)]
struct Row<'a>(&'a [Action]);

impl fmt::Display for Row<'_> {
    ghost output = { λ r. Some (spaced_of (steps_words (map step_of r.0.now))) };

    fn fmt<W: fmt::Write>(&self, f: &mut fmt::Formatter<W>) -> fmt::Result {
        for action in self.0 {
            write!(f, " {action}")?;
        }
        Ok(())
    }
}

impl fmt::Display for Command {
    ghost output = { λ c. Some (line_for (order_of c)) };

    fn fmt<W: fmt::Write>(&self, f: &mut fmt::Formatter<W>) -> fmt::Result {
        match self {
            Command::User { user, open: true } => write!(f, "user {user} open"),
            Command::User { user, open: false } => write!(f, "user {user} shut"),
            Command::May { user, command } => write!(f, "may {user} {command}"),
            Command::Program { command, actions } => {
                write!(f, "program {command}{}", Row(actions.as_slice()))
            }
            Command::Login { user } => write!(f, "login {user}"),
            Command::Run { channel, command } => write!(f, "run {channel} {command}"),
            Command::Input { channel, bytes } => {
                write!(f, "type {channel} {}", Quoted(bytes.as_slice()))
            }
            Command::Close { channel } => write!(f, "close {channel}"),
            Command::Take { channel, count } => write!(f, "take {channel} {count}"),
            Command::Turn { channel } => write!(f, "turn {channel}"),
            Command::Round => write!(f, "round"),
            Command::Arrive(way) => write!(f, "arrive {way}"),
            Command::Tick => write!(f, "tick"),
            Command::Cut(ends) => write!(f, "cut {ends}"),
            Command::Connect => write!(f, "connect"),
        }
    }
}
