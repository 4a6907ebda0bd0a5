// A program that runs.
use crate::machine::Machine;

#[derive(Clone, Copy)]
pub struct Running {
    pub command: u8,
    pub machine: Machine,
}
