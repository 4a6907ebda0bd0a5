// Which of the numbers 0 to 65,535 were used, a bit for each, in memory that is got once.
#![tactic(auto)]

ghost use Rattle.std.specs.Prelude.{◌≡◌, vec_len};

pub mod changes;

// Eight numbers to a byte, the least at its lowest bit.
#[derive(Drop)]
pub struct Numbers {
    bytes: Vec<u8>,
    ghost ok: { vec_len bytes ≡ 8192 },
}
