// The instructions of the machine.
use crate::register::Register;

pub mod bytes;

// The registers of each are a, b and c of docs/MACHINE.md, in this order.
#[derive(Clone, Copy, PartialEq, Eq, Debug)]
pub enum Instruction {
    Const(Register, u32),
    Move(Register, Register),
    Add(Register, Register, Register),
    Compare(Register, Register),
    Jump(u32),
    JumpLess(u32),
    JumpEqual(u32),
    Load(Register, Register),
    Store(Register, Register),
    // these four end a turn
    Read(Register, Register, Register),
    Write(Register, Register),
    End(Register),
    GoOn,
}
