// Twenty sealed messages, one to a line, to compare with another implementation's.
#![tactic(auto)]

use message::chunk::{Chunk, LARGEST};
use message::to_client::{Reply, ToClient};
use message::to_server::{Request, ToServer};
use seal::secret::{Direction, Secret};
use seal::way::Way;
use std::{array, io};
use wire::codec::Codec;

fn rising(first: u8) -> [u8; 32] {
    array::from_fn(|i| first.wrapping_add(i as u8))
}

// Bytes that differ from their neighbours.
fn pattern<const N: usize>() -> [u8; N] {
    array::from_fn(|i| ((7 * (i % 256) + 3) % 256) as u8)
}

fn chunk(len: usize) -> Chunk {
    Chunk::front(pattern(), len.min(LARGEST))
}

// Kept: `to_server` and `to_client` make two types, each by fields of its own.
fn to_server(channel: u16, request: Request) -> ToServer {
    ToServer::For { channel, request }
}

fn to_client(channel: u16, reply: Reply) -> ToClient {
    ToClient::Of { channel, reply }
}

// A new way, and messages sealed on it in turn.
fn lines<M: Codec>(rt: &HostRuntime, direction: Direction, messages: &[M]) -> io::Result<()> {
    let mut way = Way::new(&Secret {
        direction,
        key: rising(0),
        client: rising(100),
        server: rising(200),
    });
    for message in messages {
        line(rt, &mut way, message)?;
    }
    Ok(())
}

fn line<M: Codec>(rt: &HostRuntime, way: &mut Way, message: &M) -> io::Result<()> {
    let mut out = [0u8; 1100];
    match way.send(message, &mut out) {
        Ok(len) => {
            for b in &out[..len] {
                print!(rt; "{b:02x}")?;
            }
            println!(rt; "")
        }
        Err(_) => println!(rt; "refused"),
    }
}

fn main(rt: HostRuntime) -> io::Result<()> {
    let there = [
        ToServer::Login {
            user: 7,
            proof: pattern(),
        },
        to_server(1, Request::Run { command: 9 }),
        to_server(1, Request::Input(chunk(5))),
        to_server(1, Request::OutputCredit(8192)),
        to_server(1, Request::Eof),
        to_server(1, Request::Close),
        ToServer::Tick,
        to_server(65535, Request::Input(chunk(1024))),
        to_server(258, Request::Input(chunk(64))),
        to_server(2, Request::OutputCredit(4294967295)),
    ];
    let back = [
        ToClient::Accepted(true),
        to_client(1, Reply::Runs(true)),
        to_client(1, Reply::Output(chunk(5))),
        to_client(1, Reply::InputCredit(8192)),
        to_client(1, Reply::Exit { status: 255 }),
        ToClient::Tock,
        ToClient::Accepted(false),
        to_client(2, Reply::Runs(false)),
        to_client(65535, Reply::Output(chunk(1024))),
        to_client(258, Reply::Output(chunk(256))),
    ];
    lines(&rt, Direction::There, &there)?;
    lines(&rt, Direction::Back, &back)
}
