// The words of a line of a script, and the numbers and bytes that words stand for.
#![tactic(auto)]

pub mod bytes;
pub mod fault;
mod mode;
pub mod number;
mod quote;
pub mod words;
pub mod written;
