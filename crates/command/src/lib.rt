// The commands of a script, and what the words of a line say.
#![tactic(auto)]

pub mod keyword;
pub mod kinds;
mod row;
pub mod said;
mod words;
mod written;
