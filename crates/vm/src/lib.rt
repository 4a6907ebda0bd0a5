// The virtual machine: what an instruction does, a program's turns, and the table of commands that the server runs.
#![tactic(auto)]

pub mod code;
pub mod instance;
pub mod laws;
pub mod machine;
pub mod running;
pub mod table;
