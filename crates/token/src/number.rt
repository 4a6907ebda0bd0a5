// Numbers in decimal digits.
ghost use Rattle.std.specs.Prelude.{◌≡◌, ◌≤◌, ℕ, IfSome};
ghost use Rattle.std.specs.Option.{option_map};
ghost use Rattle.token.specs.Number.{number_of};

// The types of the numbers that words stand for.
pub trait Unsigned: Sized {
    const MAX: u32;

    ghost MAX: { ℕ };

    // The number that a value is.
    ghost value: { Self → ℕ };

    fn new(number: u32) -> Self
        requires { number ≤ MAX }
        ensures { value result ≡ number };
}

impl Unsigned for u8 {
    const MAX: u32 = 255;

    ghost MAX = { 255 };

    ghost value = { λ n. n };

    fn new(number: u32) -> u8 {
        number as u8
    }
}

impl Unsigned for u16 {
    const MAX: u32 = 65535;

    ghost MAX = { 65535 };

    ghost value = { λ n. n };

    fn new(number: u32) -> u16 {
        number as u16
    }
}

impl Unsigned for u32 {
    const MAX: u32 = 4294967295;

    ghost MAX = { 4294967295 };

    ghost value = { λ n. n };

    fn new(number: u32) -> u32 {
        number
    }
}

// The number that the word stands for, where it is digits alone and lies between `low` and `high`.
pub fn number<N: Unsigned>(word: &[u8], low: u32, high: u32) -> Option<N>
    requires { high ≤ N.MAX }
    ensures value { option_map N.value result ≡ number_of low high word.now }
    ensures range { IfSome result (λ n. (low ≤ N.value n) × (N.value n ≤ high)) }
{
    if word.is_empty() {
        return None;
    }
    let mut value: u64 = 0;
    for b in word {
        if !b.is_ascii_digit() {
            return None;
        }
        value = value * 10 + (*b - b'0') as u64;
        if value > high as u64 {
            return None;
        }
    }
    if value < low as u64 {
        return None;
    }
    Some(N::new(value as u32))
}
