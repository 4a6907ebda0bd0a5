// Sealing and opening as a benchmark in C calls it.
#![tactic(auto)]

use seal::secret::{Direction, Secret};
use seal::way::Way;

// Seals and opens the `size` bytes behind the first two of a buffer, so many times; answers how often both went well.
// Kept: the C interface answers a count.
#[unsafe(no_mangle)]
pub extern "C" fn seal_and_open(times: u32, size: usize, buffer: &mut [u8]) -> u32 {
    let mut here = Way::new(&Secret {
        direction: Direction::There,
        key: [1; 32],
        client: [2; 32],
        server: [3; 32],
    });
    let mut there = here;
    for right in 0..times {
        let Ok(len) = here.seal(size, buffer) else {
            return right;
        };
        let Ok(_) = there.open(&mut buffer[0..len]) else {
            return right;
        };
    }
    times
}
