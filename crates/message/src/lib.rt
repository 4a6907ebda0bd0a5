// The messages between client and server, and the faults for which a side cuts the connection.
#![tactic(auto)]

pub mod chunk;
pub mod fault;
pub mod to_client;
pub mod to_server;
