// Runs the published vectors of RFC 6234, 4231 and 8439, and a table of lengths.
#![tactic(auto)]

mod hashes;
mod hex;
mod streams;
mod table;

use std::io;

fn main(rt: HostRuntime) -> io::Result<()> {
    hashes::sha256_vectors(&rt)?;
    hashes::hmac_vectors(&rt)?;
    streams::chacha20_vectors(&rt)?;
    streams::last_blocks(&rt)?;
    table::lengths(&rt)
}
