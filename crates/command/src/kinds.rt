// The commands of a script.

// What a program does in its turns: one action after the other, and then from the first again.
#[derive(Drop)]
pub enum Action {
    Read(u16),
    Write(Vec<u8>),
    End(u16),
    Go,
}

// Which messages arrive: one at the server, one at the client, or all that are on the way.
#[derive(Clone, Copy, PartialEq, Eq, Debug)]
pub enum Way {
    There,
    Here,
    All,
}

// Which sides learn of a cut: the client, the server, or both.
#[derive(Clone, Copy, PartialEq, Eq, Debug)]
pub enum Ends {
    Here,
    Far,
    Both,
}

#[derive(Drop)]
pub enum Command {
    User { user: u8, open: bool },
    May { user: u8, command: u8 },
    Program { command: u8, actions: Vec<Action> },
    Login { user: u8 },
    Run { channel: u32, command: u8 },
    Input { channel: u32, bytes: Vec<u8> },
    Close { channel: u32 },
    Take { channel: u32, count: u32 },
    Turn { channel: u32 },
    Round,
    Arrive(Way),
    Tick,
    Cut(Ends),
    Connect,
}
