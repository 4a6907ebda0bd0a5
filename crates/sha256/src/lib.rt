// SHA-256 (RFC 6234).
#![tactic(auto)]

mod blocks;
mod rounds;
mod stream;
mod tail;
mod words;

pub use stream::{Error, Sha256, digest, hash};
pub use tail::padding_fills;
