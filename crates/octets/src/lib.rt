// Slices of bytes: a copy into a part, and a comparison that reads all.
#![tactic(auto)]

ghost use Rattle.std.specs.Prelude.{◌≡◌, ◌+◌, ◌≤◌, ◌↔◌, IsTrue, ◌++◌, length, take, drop};
ghost use Rattle.octets.specs.Differences.{differences};

// Writes `part` into `out`, from `at` on.
pub fn put(out: &mut [u8], at: usize, part: &[u8])
    requires { at + length part.now ≤ length out.old }
    ensures { out.new ≡ take at out.old ++ (part.now ++ drop (at + length part.now) out.old) }
{
    (&mut out[at..at + part.len()]).copy_from_slice(part);
}

// Whether both hold the same bytes. Of two that are as long as each other every byte is read, whatever they hold.
// Kept: `==` may stop at the first byte that differs.
pub fn equal(a: &[u8], b: &[u8]) -> bool
    ensures { IsTrue result ↔ (a.now ≡ b.now) }
{
    a.len() == b.len() && differences(a, b) == 0
}

// The bits in which a byte of one differs from that of the other.
fn differences(a: &[u8], b: &[u8]) -> u8
    ensures { result ≡ differences a.now b.now }
{
    a.iter().zip(b).fold(0, |all, (x, y)| all | (x ^ y))
}
