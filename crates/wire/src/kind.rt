// Which message an inside holds.
ghost use Rattle.std.specs.Prelude.{◌≡◌};
ghost use Rattle.wire.specs.Kinds.{kind_number, Names};

use crate::fault::Fault;

// To the server: 1 to 7; back: 16 to 21.
#[derive(Clone, Copy, PartialEq, Eq, Debug)]
pub enum Kind {
    Login = 1,
    Run = 2,
    Input = 3,
    OutputCredit = 4,
    Eof = 5,
    Close = 6,
    Tick = 7,
    Accepted = 16,
    Runs = 17,
    Output = 18,
    InputCredit = 19,
    Exit = 20,
    Tock = 21,
}

// Its byte.
impl From<Kind> for u8 {
    ghost from_gives = { λ kind n. n ≡ kind_number kind };

    fn from(kind: Kind) -> u8 {
        kind as u8
    }
}

// The kind of a byte, where there is one.
impl TryFrom<u8> for Kind {
    type Error = Fault;

    ghost try_from_gives = { Names };

    fn try_from(byte: u8) -> Result<Kind, Fault> {
        // Kept: a table, each number and each kind once.
        match byte {
            1 => Ok(Kind::Login),
            2 => Ok(Kind::Run),
            3 => Ok(Kind::Input),
            4 => Ok(Kind::OutputCredit),
            5 => Ok(Kind::Eof),
            6 => Ok(Kind::Close),
            7 => Ok(Kind::Tick),
            16 => Ok(Kind::Accepted),
            17 => Ok(Kind::Runs),
            18 => Ok(Kind::Output),
            19 => Ok(Kind::InputCredit),
            20 => Ok(Kind::Exit),
            21 => Ok(Kind::Tock),
            _ => Err(Fault::Malformed),
        }
    }
}
