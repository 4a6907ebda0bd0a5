// The key stream of a state, over as many blocks as are worked on side by side, or the first bytes of them.

ghost use Rattle.std.specs.Prelude.{◌≡◌, ◌*◌, ◌≤◌, length};
ghost use Rattle.chacha20.specs.Cipher.{Xored};
ghost use Rattle.chacha20.specs.Lanes.{Keyed};

use crate::state::State;
use crate::word::Word;
use octets::put;

pub(crate) fn whole<W: Word>(text: &mut [u8], s: State<u32>)
    requires { length text.old ≡ 64 * W.lanes }
    ensures { Xored text.old (Keyed s) text.new }
{
    W::xor(State::<W>::spread(s).rounds(), text);
}

pub(crate) fn part<W: Word, const N: usize>(text: &mut [u8], s: State<u32>)
    requires blocks { N ≡ 64 * W.lanes }
    requires small { N ≤ 256 }
    requires room { length text.old ≤ N }
    ensures { Xored text.old (Keyed s) text.new }
{
    let mut buffer = [0u8; N];
    put(&mut buffer, 0, text);
    whole::<W>(&mut buffer, s);
    text.copy_from_slice(&buffer[..text.len()]);
}
