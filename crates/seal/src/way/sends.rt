// A message written and sealed.
ghost use Rattle.std.specs.Prelude.{◌≡◌};
ghost use Rattle.seal.specs.Sends.{Sends};

use crate::unsent::Unsent;
use crate::way::Way;
use crate::way::turns::after;
use wire::codec::Codec;

impl Way {
    // Puts a message, sealed as the next number, at the front of a buffer; answers its length.
    pub fn send<M: Codec>(&mut self, message: &M, out: &mut [u8]) -> Result<usize, Unsent>
        ensures { Sends M.Codec.code self.old message.now out.old result self.new out.new }
    {
        let number = self.next.ok_or(Unsent::Spent)?;
        if out.len() < 18 {
            return Err(Unsent::NoRoom);
        }
        let end = out.len() - 16;
        let size = message.write(&mut out[2..end])?;
        self.seal_as(number, size, out);
        self.next = after(number);
        Ok(size + 18)
    }
}
