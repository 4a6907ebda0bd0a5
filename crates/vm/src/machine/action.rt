// The instructions that end a turn: what they ask for, and what they do once that was done.
ghost use Rattle.std.specs.Prelude.{◌≡◌, ◌<◌, ◌≤◌, IsTrue, MatchOption, SomeIff};
ghost use Rattle.message.specs.Views.{chunk_bytes};
ghost use Rattle.model.specs.Messages.{Ends};
ghost use Rattle.programs.specs.Actions.{action};
ghost use Rattle.vm.specs.Ends.{bytes_from, filled, is_length, asks, complete};

use crate::machine::Machine;
use bytecode::instruction::Instruction;
use message::chunk::Chunk;
use programs::programs::Action;

// How many bytes may be read or written at once.
fn length(n: u32) -> Option<u16>
    ensures { SomeIff result (IsTrue (is_length n)) n }
{
    match n {
        1..=1024 => Some(n as u16),
        _ => None,
    }
}

// With what a program may end.
fn status(n: u32) -> Option<u16>
    ensures { SomeIff result (n ≤ 255) n }
{
    u8::try_from(n).ok().map(u16::from)
}

impl Machine {
    // The bytes from an address on, which counts modulo 256.
    #[tactic(auto, using(std::proofs::lemmas::Grind::common_steps, crate::proofs::Wraps::from_none, crate::proofs::Wraps::from_suc))]
    fn bytes_from(&self, address: u32, count: u16) -> Chunk
        requires { count ≤ 1024 }
        ensures { chunk_bytes result ≡ bytes_from address count self.now.memory }
    {
        let mut bytes = [0; 1024];
        let count = usize::from(count);
        let front = &mut bytes[..count];
        for (i, byte) in front.iter_mut().enumerate() {
            *byte = self.memory[(address as usize + i) % 256];
        }
        Chunk::front(bytes, count)
    }

    // Stores bytes from an address on.
    #[tactic(auto, using(std::proofs::lemmas::Grind::common_steps, crate::proofs::Wraps::to_none, crate::proofs::Wraps::to_suc))]
    fn fill(&mut self, address: u32, bytes: &[u8])
        ensures { self.new ≡ filled address bytes.now self.old }
    {
        for (i, byte) in bytes.iter().enumerate() {
            self.memory[(address as usize + i) % 256] = *byte;
        }
    }

    // What the instruction asks for, where the machine stands at it, unless that cannot be.
    pub(crate) fn asks(&self, instruction: Instruction) -> Option<Action>
        ensures { MatchOption result (asks instruction self.now ≡ Ends 255) (λ a. action a ≡ asks instruction self.now) }
    {
        match instruction {
            Instruction::Read(a, _, _) => Some(Action::Read(length(self.get(a))?)),
            Instruction::Write(a, b) => {
                let count = length(self.get(a))?;
                Some(Action::Write(self.bytes_from(self.get(b), count)))
            }
            Instruction::End(a) => Some(Action::End(status(self.get(a))?)),
            _ => Some(Action::GoOn),
        }
    }

    // Does the instruction at which the machine stood between turns, once what it asked for was done.
    pub(crate) fn complete(&mut self, instruction: Instruction, bytes: &[u8], eof: bool)
        requires { self.old.counter < 1024 }
        ensures { self.new ≡ complete instruction bytes.now eof self.old }
    {
        match instruction {
            Instruction::Read(a, b, c) => {
                self.fill(self.get(b), bytes);
                self.put(a, (bytes.len() % 0x1_0000_0000) as u32);
                self.put(c, u32::from(eof));
                self.counter += 1;
            }
            Instruction::Write(..) | Instruction::GoOn => self.counter += 1,
            _ => {
                self.step(instruction);
            }
        }
    }
}
