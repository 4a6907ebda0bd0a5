// Scripts: lines of text, each a command, that are read whole or refused.
#![tactic(auto)]

pub mod promises;
pub mod reader;
pub mod report;
pub mod writer;
