// The client of a remote shell as a value: commands of the user, messages of the server, and the next message to send.
#![tactic(auto)]

mod checks;
pub mod command;
pub mod laws;
pub mod receive;
pub mod refusal;
pub mod send;
pub mod value;
