// Messages from the client to the server.
use crate::chunk::Chunk;

// Of one channel: run a command; input; so many more bytes of output may come; no more input; the client is done with it.
#[derive(Clone, Copy)]
pub enum Request {
    Run { command: u8 },
    Input(Chunk),
    OutputCredit(u32),
    Eof,
    Close,
}

#[derive(Clone, Copy)]
pub enum ToServer {
    Login { user: u8, proof: [u8; 32] },
    Tick,
    For { channel: u16, request: Request },
}
