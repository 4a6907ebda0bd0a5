// A session by example: a server is made, a program runs and ends, and a second connection comes up.
ghost use Rattle.std.specs.Prelude.{true};
ghost use Rattle.model.specs.Messages as model;

use crate::{Refusal, Server, Stop};
use message::to_client::{Reply, ToClient};
use message::to_server::{Request, ToServer};
use programs::accounts::Accounts;
use programs::programs::{Action, Programs};
use std::test::Fail;

// Each program ends in its first turn, with the number of its command.
#[derive(Drop)]
struct Ending;

impl Programs for Ending {
    type State = u8;

    ghost meaning = { record { first = λ e k. k; does = λ e s. model.Ends s; next = λ e s bs b. s; after = λ e s bs b. e; release = λ e s. e } };

    fn start(&self, command: u8) -> u8 {
        command
    }

    fn ask(&self, state: &u8) -> Action {
        Action::End(u16::from(*state))
    }

    fn resume(&mut self, _state: &mut u8, _read: &[u8], _eof: bool) {}

    fn finish(&mut self, _state: &u8) {}
}

// Everybody is accepted, and may run everything.
#[derive(Drop)]
struct Open;

impl Accounts for Open {
    ghost grants = { λ a. record { accepts = λ u q. true; may = λ u k. true } };

    fn is_right(&self, _user: u8, _proof: &[u8; 32]) -> bool {
        true
    }

    fn may_run(&self, _user: u8, _command: u8) -> bool {
        true
    }
}

fn of(channel: u16, request: Request) -> ToServer {
    ToServer::For { channel, request }
}

fn reply_of(number: u16, message: Option<ToClient>) -> Option<Reply> {
    match message {
        Some(ToClient::Of { channel, reply }) if channel == number => Some(reply),
        _ => None,
    }
}

#[test]
fn runs_and_ends(rt: HostRuntime) -> Result<(), Fail> {
    let mut server = Server::new(rt.alloc(), Ending, Open)?;
    let login = ToServer::Login {
        user: 1,
        proof: [0; 32],
    };
    assert_eq!(rt; server.receive(login), Ok(()));
    assert_eq!(rt;
        server.receive(ToServer::Tick),
        Err(Stop::Refused(Refusal::Owed))
    );
    assert!(rt; matches!(&server.next_message(), Some(ToClient::Accepted(true))));
    assert_eq!(rt; server.receive(of(3, Request::Run { command: 9 })), Ok(()));
    assert!(rt; matches!(&reply_of(3, server.next_message()), Some(Reply::Runs(true))));
    assert!(rt;
        matches!(
            &reply_of(3, server.next_message()),
            Some(Reply::InputCredit(8192))
        )
    );
    assert!(rt; server.next_message().is_none());
    assert_eq!(rt; server.turn(3), Ok(()));
    assert!(rt;
        matches!(
            &reply_of(3, server.next_message()),
            Some(Reply::Exit { status: 9 })
        )
    );
    assert_eq!(rt; server.receive(of(3, Request::Close)), Ok(()));
    assert_eq!(rt; server.connect(Open), Err(Refusal::Busy));
    assert_eq!(rt; server.cut(), Ok(()));
    assert_eq!(rt; server.connect(Open), Ok(()));
    Ok(())
}
