// Messages to the client, written and read.
ghost use Rattle.std.specs.Prelude.{◌≡◌, false, MatchOption};
ghost use Rattle.message.specs.Views.{reply as reply_of, to_client};
ghost use Rattle.wire.specs.Codes.{to_client_heads};
ghost use Rattle.wire.specs.Inside.{GoodReply, inside, known_reply, reply_kind, reply_rest};
ghost use Rattle.wire.specs.Kinds.{kind_number};
ghost use Rattle.wire.specs.Writes.{Wrote};
ghost use Rattle.wire.specs.Back.{client-kinds, to-client-back, to-client-short};

use crate::field::Field;
use crate::head::Head;
use crate::headed::Headed;
use crate::kind::Kind;
use crate::unwritten::Unwritten;
use message::chunk::Chunk;
use message::to_client::{Reply, ToClient};

// Kept: replies and requests differ in their arms, not in a type.
fn reply(kind: Kind, rest: &[u8]) -> Option<Reply>
    ensures { MatchOption result (known_reply (kind_number kind) rest.now ≡ false) (λ q. GoodReply (reply_of q) × (reply_kind (reply_of q) ≡ kind_number kind) × (reply_rest (reply_of q) ≡ rest.now)) }
{
    match kind {
        Kind::Runs => Some(Reply::Runs(bool::read(rest)?)),
        Kind::Output => Some(Reply::Output(Chunk::read(rest)?)),
        Kind::InputCredit => Some(Reply::InputCredit(u32::read(rest)?)),
        Kind::Exit => Some(Reply::Exit {
            status: u8::read(rest)?,
        }),
        _ => None,
    }
}

fn write_reply(reply: &Reply, channel: u16, out: &mut [u8]) -> Result<usize, Unwritten>
    ensures { Wrote (GoodReply (reply_of reply.now)) (inside (reply_kind (reply_of reply.now)) channel (reply_rest (reply_of reply.now))) out.old result out.new }
{
    match reply {
        Reply::Runs(runs) => runs.write(Kind::Runs.of(channel), out),
        Reply::Output(chunk) => chunk.write(Kind::Output.of(channel), out),
        Reply::InputCredit(more) => more.write(Kind::InputCredit.of(channel), out),
        Reply::Exit { status } => status.write(Kind::Exit.of(channel), out),
    }
}

impl Headed for ToClient {
    ghost code = { to_client_heads };

    ghost short = { to-client-short };

    ghost written_known = { λ m g. (to-client-back m g).1 };

    ghost kinds_known = { client-kinds };

    fn write(&self, out: &mut [u8]) -> Result<usize, Unwritten> {
        match self {
            ToClient::Accepted(accepted) => accepted.write(Kind::Accepted.of(0), out),
            ToClient::Tock => ().write(Kind::Tock.of(0), out),
            ToClient::Of { channel, reply } => write_reply(reply, *channel, out),
        }
    }

    fn from_head(head: Head, rest: &[u8]) -> Option<ToClient> {
        match (head.kind, head.channel) {
            (Kind::Accepted, 0) => Some(ToClient::Accepted(bool::read(rest)?)),
            (Kind::Tock, 0) => {
                <()>::read(rest)?;
                Some(ToClient::Tock)
            }
            (Kind::Accepted | Kind::Tock, _) => None,
            (kind, channel) => Some(ToClient::Of {
                channel,
                reply: reply(kind, rest)?,
            }),
        }
    }
}
