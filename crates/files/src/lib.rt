// put and get as programs over the store.
#![tactic(auto)]

pub mod digests;
pub mod files;
pub mod files_programs;
pub mod moves;
pub mod transfer;
pub mod turns;
