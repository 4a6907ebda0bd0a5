// Messages from the server to the client.
use crate::chunk::Chunk;

// Of one channel: it runs, or it does not; output; so many more bytes of input may come; it ended.
#[derive(Clone, Copy)]
pub enum Reply {
    Runs(bool),
    Output(Chunk),
    InputCredit(u32),
    Exit { status: u8 },
}

#[derive(Clone, Copy)]
pub enum ToClient {
    Accepted(bool),
    Tock,
    Of { channel: u16, reply: Reply },
}
