// A stream of sealed messages, read as it comes.
#![tactic(auto)]

pub mod reader;
pub mod receiver;
pub mod theorems;
pub mod too_long;
