// What single words say.
ghost use Rattle.std.specs.Prelude.{◌≡◌};
ghost use Rattle.std.specs.Option.{ok_or};
ghost use Rattle.token.specs.Reads.{Reads};
ghost use Rattle.token.specs.Number.{number_of};
ghost use Rattle.token.specs.declared.fault.Fault.TheVariants.{Bad};
ghost use Rattle.command.specs.Meaning.{ends_of, open_of, user_of, way_of};

use crate::kinds::{Ends, Way};
use token::fault::Fault;
use token::number::{Unsigned, number};

pub fn user_number(word: &[u8]) -> Result<u8, Fault>
    ensures { result ≡ ok_or (user_of word.now) Fault.Bad }
{
    number(word, 1, u8::MAX as u32).ok_or(Fault::Bad)
}

// Any number that the type holds.
pub fn whole<N: Unsigned>(word: &[u8]) -> Result<N, Fault>
    ensures { Reads N.value result (number_of 0 N.MAX word.now) }
{
    number(word, 0, N::MAX).ok_or(Fault::Bad)
}

pub fn open_or_shut(word: &[u8]) -> Result<bool, Fault>
    ensures { result ≡ ok_or (open_of word.now) Fault.Bad }
{
    match word {
        b"open" => Ok(true),
        b"shut" => Ok(false),
        _ => Err(Fault::Bad),
    }
}

impl TryFrom<&[u8]> for Way {
    type Error = Fault;

    ghost try_from_gives = { λ w r. r ≡ ok_or (way_of w.now) Bad };

    fn try_from(word: &[u8]) -> Result<Way, Fault> {
        match word {
            b"there" => Ok(Way::There),
            b"here" => Ok(Way::Here),
            b"all" => Ok(Way::All),
            _ => Err(Fault::Bad),
        }
    }
}

impl TryFrom<&[u8]> for Ends {
    type Error = Fault;

    ghost try_from_gives = { λ w r. r ≡ ok_or (ends_of w.now) Bad };

    fn try_from(word: &[u8]) -> Result<Ends, Fault> {
        match word {
            b"here" => Ok(Ends::Here),
            b"far" => Ok(Ends::Far),
            b"both" => Ok(Ends::Both),
            _ => Err(Fault::Bad),
        }
    }
}
