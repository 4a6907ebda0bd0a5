// The receiving end of one way: bytes in, messages out.
ghost use Rattle.std.specs.Prelude.{◌≡◌, None};
ghost use Rattle.stream.specs.Readers.{held_of, Short};

use crate::reader::Reader;
use seal::way::Way;
use wire::fault::Fault;

mod nexts;

#[derive(Clone, Copy)]
pub struct Receiver {
    way: Way,
    reader: Reader,
    // why nothing more is taken
    fault: Option<Fault>,
    pub ghost short: { fault ≡ None → Short (held_of reader) },
}
