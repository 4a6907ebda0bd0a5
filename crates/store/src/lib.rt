// Files on a disk: puts and gets under way, each with the blocks that it has.
#![tactic(auto)]

pub mod calls;
pub mod commits;
pub mod lease;
pub mod store;
