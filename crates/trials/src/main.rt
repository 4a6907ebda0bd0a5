// Streams that are cut, damaged and out of order, and what comes of them.
#![tactic(auto)]

ghost use Rattle.std.specs.Prelude.{◌≤◌, length, IfOk};

use message::chunk::Chunk;
use message::to_server::{Request, ToServer};
use seal::secret::{Direction, Secret};
use seal::unsent::Unsent;
use seal::way::Way;
use std::io;
use stream::receiver::Receiver;
use wire::fault::Fault;

const MESSAGES: u16 = 100;

// What came out of a stream: how many messages, and the sum of their channels.
#[derive(Clone, Copy, PartialEq, Eq, Default)]
struct Seen {
    messages: u32,
    channels: u32,
}

impl Seen {
    fn count(&mut self, message: ToServer) {
        self.messages = self.messages.saturating_add(1);
        if let ToServer::For { channel, .. } = message {
            self.channels = self.channels.saturating_add(u32::from(channel));
        }
    }
}

// The changes of one byte of a message, by the fault in which they end.
#[derive(Clone, Copy, Default)]
struct Damages {
    length: u32,
    tag: u32,
    none: u32,
}

fn way() -> Way {
    Way::new(&Secret {
        direction: Direction::There,
        key: [1; 32],
        client: [2; 32],
        server: [3; 32],
    })
}

// The message number i: input of a few bytes on channel i.
fn message(i: u16) -> ToServer {
    let bytes = [(i % 256) as u8; 1024];
    ToServer::For {
        channel: i,
        request: Request::Input(Chunk::front(bytes, 1 + usize::from(i % 40))),
    }
}

// Fills the front of a buffer with sealed messages; answers its length.
fn seal_all(way: &mut Way, out: &mut [u8]) -> Result<usize, Unsent>
    ensures { IfOk result (λ end. end ≤ length out.new) }
{
    let mut end = 0;
    for i in 0..MESSAGES {
        end += way.send(&message(i), &mut out[end..])?;
    }
    Ok(end)
}

// Takes in a piece.
fn receive(receiver: &mut Receiver, piece: &[u8], seen: &mut Seen) -> Result<(), Fault> {
    let mut rest = piece;
    while let Some((message, used)) = receiver.next(rest)? {
        seen.count(message);
        rest = &rest[used..];
    }
    Ok(())
}

// All of a stream in two pieces, and how it ends.
fn in_two(stream: &[u8], cut: usize) -> (Seen, Result<(), Fault>) {
    let (front, back) = stream.split_at(cut.min(stream.len()));
    let mut receiver = Receiver::new(way());
    let mut seen = Seen::default();
    // The end tells each fault again.
    let _ = receive(&mut receiver, front, &mut seen);
    let _ = receive(&mut receiver, back, &mut seen);
    (seen, receiver.end())
}

// How many cuts of a stream leave all its messages as they were.
fn cuts(stream: &[u8]) -> usize {
    let all = Seen {
        messages: 100,
        channels: 4950,
    };
    (0..=stream.len())
        .filter(|cut| {
            let (seen, end) = in_two(stream, *cut);
            seen == all && end.is_ok()
        })
        .count()
}

fn damaged(frame: &mut [u8]) -> Damages {
    let mut damages = Damages::default();
    // Kept: by index, since the whole frame is read while one byte of it is changed.
    for i in 0..frame.len() {
        for by in 1..=255u8 {
            frame[i] ^= by;
            let (_, end) = in_two(frame, 0);
            frame[i] ^= by;
            let count = match end {
                Err(Fault::Length) => &mut damages.length,
                Err(Fault::Tag) => &mut damages.tag,
                _ => &mut damages.none,
            };
            *count = count.saturating_add(1);
        }
    }
    damages
}

// One message behind another: how many are taken, and the fault's number or 0.
fn in_order(first: &[u8], second: &[u8]) -> (u32, u8) {
    let mut receiver = Receiver::new(way());
    let mut seen = Seen::default();
    let mut number = 0;
    for piece in [first, second] {
        // Behind a fault nothing is taken, and it is told again.
        if let Err(fault) = receive(&mut receiver, piece, &mut seen) {
            number = u8::from(fault);
        }
    }
    (seen.messages, number)
}

fn show(rt: &impl Print, order: &str, first: &[u8], second: &[u8]) -> io::Result<()> {
    let (messages, fault) = in_order(first, second);
    println!(rt; "{order}: {messages} taken, fault {fault}")
}

fn main(rt: HostRuntime) -> io::Result<()> {
    let mut stream = [0u8; 8192];
    let Ok(end) = seal_all(&mut way(), &mut stream) else {
        return println!(rt; "the messages find no room");
    };
    let whole = cuts(&stream[..end]);
    println!(rt; "{whole} cuts of {end} bytes leave all messages")?;
    let mut a = [0u8; 37];
    let mut b = [0u8; 40];
    let mut one = way();
    let _ = one.send(&message(15), &mut a);
    let _ = one.send(&message(18), &mut b);
    let Damages { length, tag, none } = damaged(&mut a);
    println!(rt; "damaged: {length} of length, {tag} of tag, {none} unseen")?;
    show(&rt, "first, second", &a, &b)?;
    show(&rt, "second, first", &b, &a)?;
    show(&rt, "first, first", &a, &a)?;
    show(&rt, "second, second", &b, &b)
}
