// An instruction as 8 bytes: opcode, three registers, a number with its high byte first.
ghost use Rattle.std.specs.Prelude.{◌≡◌, MatchResult, ◌≢◌};
ghost use Rattle.bytecode.specs.declared.instruction.Instruction.{Instruction as SomeInstruction};
ghost use Rattle.bytecode.specs.Encoding.{row, encoded, low, guessed};

use crate::instruction::Instruction;
use crate::register::Register;

// Kept: numbers and no enum of their own, which would only list the variants of `Instruction` again.
const CONST: u8 = 1;

const MOVE: u8 = 2;

const ADD: u8 = 3;

const COMPARE: u8 = 4;

const JUMP: u8 = 5;

const JUMP_LESS: u8 = 6;

const JUMP_EQUAL: u8 = 7;

const LOAD: u8 = 8;

const STORE: u8 = 9;

const READ: u8 = 10;

const WRITE: u8 = 11;

const END: u8 = 12;

const GO_ON: u8 = 13;

fn row(opcode: u8, a: u8, b: u8, c: u8, n: u32) -> [u8; 8]
    ensures { result ≡ row opcode a b c n }
{
    let [n0, n1, n2, n3] = n.to_be_bytes();
    [opcode, a, b, c, n0, n1, n2, n3]
}

// The register of the low four bits.
fn low(byte: u8) -> Register
    ensures { result ≡ low byte }
{
    Register { number: byte % 16 }
}

// The one instruction that a row of bytes may be.
// Kept: a guess that is then compared with the row, so that no register and no unused byte needs a test of its own.
fn guess(opcode: u8, a: u8, b: u8, c: u8, n: u32) -> Instruction
    ensures { result ≡ guessed opcode a b c n }
{
    let (a, b, c) = (low(a), low(b), low(c));
    match opcode {
        CONST => Instruction::Const(a, n),
        MOVE => Instruction::Move(a, b),
        ADD => Instruction::Add(a, b, c),
        COMPARE => Instruction::Compare(a, b),
        JUMP => Instruction::Jump(n),
        JUMP_LESS => Instruction::JumpLess(n),
        JUMP_EQUAL => Instruction::JumpEqual(n),
        LOAD => Instruction::Load(a, b),
        STORE => Instruction::Store(a, b),
        READ => Instruction::Read(a, b, c),
        WRITE => Instruction::Write(a, b),
        END => Instruction::End(a),
        _ => Instruction::GoOn,
    }
}

impl From<Instruction> for [u8; 8] {
    ghost from_gives = { λ i bytes. bytes ≡ encoded i };

    fn from(instruction: Instruction) -> [u8; 8] {
        match instruction {
            Instruction::Const(a, n) => row(CONST, a.number, 0, 0, n),
            Instruction::Move(a, b) => row(MOVE, a.number, b.number, 0, 0),
            Instruction::Add(a, b, c) => row(ADD, a.number, b.number, c.number, 0),
            Instruction::Compare(a, b) => row(COMPARE, a.number, b.number, 0, 0),
            Instruction::Jump(to) => row(JUMP, 0, 0, 0, to),
            Instruction::JumpLess(to) => row(JUMP_LESS, 0, 0, 0, to),
            Instruction::JumpEqual(to) => row(JUMP_EQUAL, 0, 0, 0, to),
            Instruction::Load(a, b) => row(LOAD, a.number, b.number, 0, 0),
            Instruction::Store(a, b) => row(STORE, a.number, b.number, 0, 0),
            Instruction::Read(a, b, c) => row(READ, a.number, b.number, c.number, 0),
            Instruction::Write(a, b) => row(WRITE, a.number, b.number, 0, 0),
            Instruction::End(a) => row(END, a.number, 0, 0, 0),
            Instruction::GoOn => row(GO_ON, 0, 0, 0, 0),
        }
    }
}

// Bytes that are no instruction's.
#[derive(Clone, Copy, PartialEq, Eq, Debug)]
pub struct NoInstruction;

impl TryFrom<&[u8]> for Instruction {
    type Error = NoInstruction;

    ghost try_from_gives = { λ bytes r. MatchResult r (λ i. encoded i ≡ bytes.now) (λ _. (i : SomeInstruction) → encoded i ≢ bytes.now) };

    fn try_from(bytes: &[u8]) -> Result<Instruction, NoInstruction> {
        let [opcode, a, b, c, n0, n1, n2, n3] = bytes else {
            return Err(NoInstruction);
        };
        let n = u32::from_be_bytes([*n0, *n1, *n2, *n3]);
        let guessed = guess(*opcode, *a, *b, *c, n);
        if <[u8; 8]>::from(guessed).as_slice() == bytes {
            Ok(guessed)
        } else {
            Err(NoInstruction)
        }
    }
}
