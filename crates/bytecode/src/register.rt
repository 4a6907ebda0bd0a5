// The number of a register: one of sixteen.
ghost use Rattle.std.specs.Prelude.{◌<◌};

#[derive(Clone, Copy, PartialEq, Eq, Debug)]
pub struct Register {
    pub number: u8,
    ghost ok: { number < 16 },
}
