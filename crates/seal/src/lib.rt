// Messages sealed and opened: encrypted, numbered and tagged.
#![tactic(auto)]

pub mod secret;
mod tags;
pub mod theorems;
pub mod unsealed;
pub mod unsent;
pub mod way;
