// The words that a line begins with.
ghost use Rattle.std.specs.Prelude.{◌≡◌};
ghost use Rattle.std.specs.Option.{ok_or};
ghost use Rattle.token.specs.declared.fault.Fault.TheVariants.{Bad};
ghost use Rattle.command.specs.Keywords.{keyword_of};

use token::fault::Fault;

#[derive(Clone, Copy, PartialEq, Eq, Debug)]
pub enum Keyword {
    User,
    May,
    Program,
    Login,
    Run,
    Input,
    Close,
    Take,
    Turn,
    Round,
    Arrive,
    Tick,
    Cut,
    Connect,
}

impl TryFrom<&[u8]> for Keyword {
    type Error = Fault;

    ghost try_from_gives = { λ w r. r ≡ ok_or (keyword_of w.now) Bad };

    #[tactic(auto, unfolding(crate::specs::Keywords::keyword_of, crate::specs::Keywords::named))]
    fn try_from(word: &[u8]) -> Result<Keyword, Fault> {
        match word {
            b"user" => Ok(Keyword::User),
            b"may" => Ok(Keyword::May),
            b"program" => Ok(Keyword::Program),
            b"login" => Ok(Keyword::Login),
            b"run" => Ok(Keyword::Run),
            b"type" => Ok(Keyword::Input),
            b"close" => Ok(Keyword::Close),
            b"take" => Ok(Keyword::Take),
            b"turn" => Ok(Keyword::Turn),
            b"round" => Ok(Keyword::Round),
            b"arrive" => Ok(Keyword::Arrive),
            b"tick" => Ok(Keyword::Tick),
            b"cut" => Ok(Keyword::Cut),
            b"connect" => Ok(Keyword::Connect),
            _ => Err(Fault::Bad),
        }
    }
}
