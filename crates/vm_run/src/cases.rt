// The cases of a file, one after the other.
ghost use Rattle.std.specs.Prelude.{◌<◌, ◌≤◌, length, IfSome};
ghost use Rattle.std.specs.Iterator.{at_most};

#[derive(Clone, Copy)]
pub struct Case<'a> {
    pub name: &'a [u8],
    pub program: &'a [u8],
    pub input: &'a [u8],
    pub turns: u16,
}

// What is left of the file.
#[derive(Drop)]
pub struct Cases<'a> {
    rest: &'a [u8],
}

impl<'a> Cases<'a> {
    pub fn new(file: &'a [u8]) -> Cases<'a> {
        Cases { rest: file }
    }

    fn byte(&mut self) -> Option<u8>
        ensures { IfSome result (λ _. length self.new.rest.now < length self.old.rest.now) }
    {
        let (first, rest) = self.rest.split_first()?;
        self.rest = rest;
        Some(*first)
    }

    // So many bytes.
    fn cut(&mut self, count: usize) -> Option<&'a [u8]>
        ensures { length self.new.rest.now ≤ length self.old.rest.now }
    {
        let (front, rest) = self.rest.split_at_checked(count)?;
        self.rest = rest;
        Some(front)
    }

    fn number(&mut self) -> Option<u16>
        ensures { length self.new.rest.now ≤ length self.old.rest.now }
    {
        let (bytes, rest) = self.rest.split_first_chunk()?;
        self.rest = rest;
        Some(u16::from_be_bytes(*bytes))
    }

    // Bytes behind their length.
    fn bytes(&mut self) -> Option<&'a [u8]>
        ensures { length self.new.rest.now ≤ length self.old.rest.now }
    {
        let count = self.number()?;
        self.cut(usize::from(count))
    }
}

impl<'a> Iterator for Cases<'a> {
    type Item = Case<'a>;

    ghost remaining = { λ s. at_most (length s.rest.now) };

    fn next(&mut self) -> Option<Case<'a>> {
        let count = self.byte()?;
        Some(Case {
            name: self.cut(usize::from(count))?,
            program: self.bytes()?,
            input: self.bytes()?,
            turns: self.number()?,
        })
    }
}
