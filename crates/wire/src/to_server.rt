// Messages to the server, written and read.
ghost use Rattle.std.specs.Prelude.{◌≡◌, false, MatchOption};
ghost use Rattle.message.specs.Views.{request as request_of, to_server};
ghost use Rattle.wire.specs.Codes.{to_server_heads};
ghost use Rattle.wire.specs.Inside.{GoodRequest, inside, known_request, request_kind, request_rest};
ghost use Rattle.wire.specs.Kinds.{kind_number};
ghost use Rattle.wire.specs.Writes.{Wrote};
ghost use Rattle.wire.specs.Back.{server-kinds, to-server-back, to-server-short};

use crate::field::Field;
use crate::head::Head;
use crate::headed::Headed;
use crate::kind::Kind;
use crate::unwritten::Unwritten;
use message::chunk::Chunk;
use message::to_server::{Request, ToServer};

// Kept: a table, each kind of request once.
fn request(kind: Kind, rest: &[u8]) -> Option<Request>
    ensures { MatchOption result (known_request (kind_number kind) rest.now ≡ false) (λ q. GoodRequest (request_of q) × (request_kind (request_of q) ≡ kind_number kind) × (request_rest (request_of q) ≡ rest.now)) }
{
    match kind {
        Kind::Run => Some(Request::Run {
            command: u8::read(rest)?,
        }),
        Kind::Input => Some(Request::Input(Chunk::read(rest)?)),
        Kind::OutputCredit => Some(Request::OutputCredit(u32::read(rest)?)),
        Kind::Eof => {
            <()>::read(rest)?;
            Some(Request::Eof)
        }
        Kind::Close => {
            <()>::read(rest)?;
            Some(Request::Close)
        }
        _ => None,
    }
}

fn write_request(request: &Request, channel: u16, out: &mut [u8]) -> Result<usize, Unwritten>
    ensures { Wrote (GoodRequest (request_of request.now)) (inside (request_kind (request_of request.now)) channel (request_rest (request_of request.now))) out.old result out.new }
{
    match request {
        Request::Run { command } => command.write(Kind::Run.of(channel), out),
        Request::Input(chunk) => chunk.write(Kind::Input.of(channel), out),
        Request::OutputCredit(more) => more.write(Kind::OutputCredit.of(channel), out),
        Request::Eof => ().write(Kind::Eof.of(channel), out),
        Request::Close => ().write(Kind::Close.of(channel), out),
    }
}

impl Headed for ToServer {
    ghost code = { to_server_heads };

    ghost short = { to-server-short };

    ghost written_known = { λ m g. (to-server-back m g).1 };

    ghost kinds_known = { server-kinds };

    fn write(&self, out: &mut [u8]) -> Result<usize, Unwritten> {
        match self {
            ToServer::Login { user, proof } => (*user, *proof).write(Kind::Login.of(0), out),
            ToServer::Tick => ().write(Kind::Tick.of(0), out),
            ToServer::For { channel, request } => write_request(request, *channel, out),
        }
    }

    fn from_head(head: Head, rest: &[u8]) -> Option<ToServer> {
        match (head.kind, head.channel) {
            (Kind::Login, 0) => {
                let (user, proof) = <(u8, [u8; 32])>::read(rest)?;
                Some(ToServer::Login { user, proof })
            }
            (Kind::Tick, 0) => {
                <()>::read(rest)?;
                Some(ToServer::Tick)
            }
            (Kind::Login | Kind::Tick, _) => None,
            (kind, channel) => Some(ToServer::For {
                channel,
                request: request(kind, rest)?,
            }),
        }
    }
}
