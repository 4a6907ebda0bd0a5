// A message's inside as bytes, written and read.
#![tactic(auto)]

#[cfg(test)]
mod cases;
pub mod codec;
pub mod fault;
mod field;
mod fields;
pub mod head;
pub mod headed;
pub mod kind;
pub mod theorems;
mod to_client;
mod to_server;
pub mod unwritten;
