// Messages as the examples write them.
use client::value::Client;
use message::chunk::Chunk;
use message::to_client::{Reply, ToClient};
use message::to_server::{Request, ToServer};

// What a message to the server is: a user's login; the start, the eof or the close of a channel; so many bytes of input, or of credit.
#[derive(Clone, Copy, PartialEq, Eq, Debug)]
pub enum Sent {
    Login(u8),
    Tick,
    Run(u16),
    Input(usize),
    Credit(u32),
    Eof(u16),
    Close(u16),
}

impl From<ToServer> for Sent {
    fn from(message: ToServer) -> Sent {
        match message {
            ToServer::Login { user, proof: _ } => Sent::Login(user),
            ToServer::Tick => Sent::Tick,
            ToServer::For { channel, request } => match request {
                Request::Run { command: _ } => Sent::Run(channel),
                Request::Input(chunk) => Sent::Input(chunk.len()),
                Request::OutputCredit(count) => Sent::Credit(count),
                Request::Eof => Sent::Eof(channel),
                Request::Close => Sent::Close(channel),
            },
        }
    }
}

pub fn next(client: &mut Client) -> Option<Sent> {
    client.next_message().map(Sent::from)
}

pub fn of(channel: u16, reply: Reply) -> ToClient {
    ToClient::Of { channel, reply }
}

// The bytes; none where they are too many for one message.
pub fn chunk(bytes: &[u8]) -> Chunk {
    Chunk::new(bytes).unwrap_or(Chunk::front([0; 1024], 0))
}
