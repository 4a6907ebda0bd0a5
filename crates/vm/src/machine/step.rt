// One instruction.
ghost use Rattle.std.specs.Prelude.{◌≡◌, ◌<◌, not};
ghost use Rattle.vm.specs.Step.{get, put, byte_at, stored, execute, ends_turn};

use crate::machine::Machine;
use bytecode::instruction::Instruction;
use bytecode::register::Register;

impl Machine {
    pub(crate) fn get(&self, r: Register) -> u32
        ensures { result ≡ get r self.now }
    {
        self.registers[r.number as usize]
    }

    pub(crate) fn put(&mut self, register: Register, value: u32)
        ensures { self.new ≡ put register value self.old }
    {
        self.registers[register.number as usize] = value;
    }

    // The byte at an address, which counts modulo 256.
    fn load(&self, address: u32) -> u8
        ensures { result ≡ byte_at address self.now }
    {
        self.memory[(address % 256) as usize]
    }

    fn store(&mut self, address: u32, byte: u8)
        ensures { self.new ≡ stored address byte self.old }
    {
        self.memory[(address % 256) as usize] = byte;
    }

    // Does an instruction, unless it ends the turn: then the machine stays, and the answer is false.
    // Kept: a flag, since a caller asks only whether to go on; a `ControlFlow` says no more.
    #[inline(always)]
    pub(crate) fn step(&mut self, instruction: Instruction) -> bool
        requires { self.old.counter < 1024 }
        ensures after { self.new ≡ execute instruction self.old }
        ensures goes { result ≡ not (ends_turn instruction) }
    {
        match instruction {
            Instruction::Const(a, n) => self.put(a, n),
            Instruction::Move(a, b) => self.put(a, self.get(b)),
            Instruction::Add(a, b, c) => self.put(a, self.get(b).wrapping_add(self.get(c))),
            Instruction::Compare(a, b) => {
                let (x, y) = (self.get(a), self.get(b));
                self.less = x < y;
                self.equal = x == y;
            }
            Instruction::Jump(to) => {
                self.counter = to;
                return true;
            }
            Instruction::JumpLess(to) => {
                if self.less {
                    self.counter = to;
                    return true;
                }
            }
            Instruction::JumpEqual(to) => {
                if self.equal {
                    self.counter = to;
                    return true;
                }
            }
            Instruction::Load(a, b) => self.put(a, u32::from(self.load(self.get(b)))),
            Instruction::Store(a, b) => self.store(self.get(b), (self.get(a) % 256) as u8),
            Instruction::Read(..)
            | Instruction::Write(..)
            | Instruction::End(..)
            | Instruction::GoOn => return false,
        }
        self.counter += 1;
        true
    }
}
