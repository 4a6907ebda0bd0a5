// Where in a line a byte stands.
ghost use Rattle.std.specs.Prelude.{◌≡◌};
ghost use Rattle.token.specs.Words.{after_byte, ends_word};

#[derive(Clone, Copy, PartialEq, Eq)]
pub enum Mode {
    Plain,
    // Between two quotes.
    Quoted,
    // Behind a backslash between two quotes.
    Escaped,
}

impl Mode {
    // Whether the byte ends a word.
    pub fn ends_word(self, byte: u8) -> bool
        ensures { result ≡ ends_word self byte }
    {
        match self {
            Mode::Plain => byte == b' ' || byte == b'#',
            Mode::Quoted | Mode::Escaped => false,
        }
    }

    // Where the next byte stands.
    pub fn after(self, byte: u8) -> Mode
        ensures { result ≡ after_byte self byte }
    {
        match self {
            Mode::Plain => {
                if byte == b'"' {
                    Mode::Quoted
                } else {
                    Mode::Plain
                }
            }
            Mode::Quoted => match byte {
                b'"' => Mode::Plain,
                b'\\' => Mode::Escaped,
                _ => Mode::Quoted,
            },
            Mode::Escaped => Mode::Quoted,
        }
    }
}
