// What both sides know of one way of a connection.

#[derive(Clone, Copy, PartialEq, Eq, Debug)]
pub enum Direction {
    // to the server
    There,
    // to the client
    Back,
}

#[derive(Clone, Copy)]
pub struct Secret {
    pub direction: Direction,
    // the connection's
    pub key: [u8; 32],
    // what each side drew when the connection came up
    pub client: [u8; 32],
    pub server: [u8; 32],
}
