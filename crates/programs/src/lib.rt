// What a program is to the server, and what an account is: traits by their meaning in the model.
#![tactic(auto)]

pub mod accounts;
pub mod programs;
