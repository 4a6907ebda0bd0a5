// One program, turn by turn, with all its input at hand.
use crate::cases::Case;
use crate::digest::Digest;
use crate::shown::Shown;
use anyhow::bail;
use bytecode::program::Program;
use programs::programs::{Action, Programs};
use std::alloc::{AllocError, Global};
use std::fmt;
use vm::running::Running;
use vm::table::Table;

// A run so far, and what was seen of it.
#[derive(Drop)]
pub struct Play<'a> {
    name: &'a [u8],
    table: Table,
    state: Running,
    // what was not read yet
    input: &'a [u8],
    turns: u16,
    status: Option<u16>,
    wrote: Vec<u8>,
    digest: Digest,
}

impl<'a> Play<'a> {
    pub fn new(heap: Global, case: Case<'a>) -> anyhow::Result<Play<'a>> {
        let Ok(program) = Program::read(heap, case.program) else {
            bail!("no program");
        };
        let mut table = Table::new(heap);
        let Ok(()) = table.add(1, program) else {
            bail!("no table");
        };
        let state = table.start(1);
        Ok(Play {
            name: case.name,
            table,
            state,
            input: case.input,
            turns: 0,
            status: None,
            wrote: Vec::new(heap),
            digest: Digest::new(),
        })
    }

    // At most so many turns.
    pub fn run(&mut self, most: u16) -> Result<(), AllocError> {
        for turn in 1..=most {
            self.turns = turn;
            self.turn()?;
            if self.status.is_some() {
                break;
            }
        }
        self.feed_machine();
        Ok(())
    }

    fn turn(&mut self) -> Result<(), AllocError> {
        match self.table.ask(&self.state) {
            Action::Read(count) => {
                self.digest.feed(&[1]);
                self.digest.word(u32::from(count));
                let (came, rest) = self
                    .input
                    .split_at(self.input.len().min(usize::from(count)));
                self.input = rest;
                self.table.resume(&mut self.state, came, came.is_empty());
            }
            Action::Write(chunk) => {
                self.digest.feed(&[2]);
                self.digest.feed(chunk.as_slice());
                self.wrote.extend_from_slice(chunk.as_slice())?;
                self.table.resume(&mut self.state, &[], false);
            }
            Action::End(status) => {
                self.digest.feed(&[3]);
                self.digest.word(u32::from(status));
                self.status = Some(status);
            }
            Action::GoOn => {
                self.digest.feed(&[4]);
                self.table.resume(&mut self.state, &[], false);
            }
        }
        Ok(())
    }

    // Where the machine stands at the end, into the digest.
    fn feed_machine(&mut self) {
        let machine = self.state.machine;
        for value in machine.registers {
            self.digest.word(value);
        }
        self.digest.feed(&machine.memory);
        self.digest.word(machine.counter);
        self.digest
            .feed(&[u8::from(machine.less), u8::from(machine.equal)]);
    }
}

// Without a name a case is told by its digest alone.
impl fmt::Display for Play<'_> {
    fn fmt<W: fmt::Write>(&self, f: &mut fmt::Formatter<W>) -> fmt::Result {
        let digest = self.digest;
        if self.name.is_empty() {
            return write!(f, "{digest}");
        }
        let name = Shown(self.name);
        let turns = self.turns;
        write!(f, "{name}: {turns} turns, ")?;
        match self.status {
            Some(status) => write!(f, "ended with {status}")?,
            None => write!(f, "runs on")?,
        }
        let count = self.wrote.len();
        let wrote = Shown(self.wrote.as_slice());
        write!(f, ", wrote {count} \"{wrote}\", {digest}")
    }
}
