// ChaCha20 (RFC 8439).
#![tactic(auto)]

mod cipher;
mod state;
mod stream;
mod word;
mod xor;

pub use cipher::{Error, apply, undoes};
