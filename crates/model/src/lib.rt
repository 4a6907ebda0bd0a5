// Both sides of a remote shell as definitions (specs/), and what follows from them: each promise is the contract of a function.
#![tactic(auto)]

pub mod cases;
pub mod files;
pub mod progress;
pub mod promises;
