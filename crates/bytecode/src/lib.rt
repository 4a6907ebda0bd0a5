// A program's instructions, and their bytes.
#![tactic(auto)]

pub mod instruction;
pub mod laws;
pub mod program;
pub mod register;
pub mod unreadable;
