// What a running program has: registers, memory, the program counter, and what the last comparison found.
pub mod action;
pub mod step;
pub mod turn;

#[derive(Clone, Copy)]
pub struct Machine {
    pub registers: [u32; 16],
    pub memory: [u8; 256],
    // the place of the instruction that comes next, or of the one that the machine stands at between turns
    pub counter: u32,
    pub less: bool,
    pub equal: bool,
}
