// Names of files, and the record that says which blocks a file has: one block on the disk.
#![tactic(auto)]

pub mod code;
pub mod name;
pub mod names;
pub mod record;
