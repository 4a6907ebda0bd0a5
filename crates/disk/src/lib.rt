// A disk: blocks that are read and written one by one, and a crash that may tear the one being written.
#![tactic(auto)]

pub mod disk;
pub mod failing;
pub mod failing_disk;
pub mod memory;
pub mod memory_disk;
