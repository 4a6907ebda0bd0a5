// Messages, one after another, from pieces of any size.
ghost use Rattle.std.specs.Prelude.{◌≡◌, length, Some};
ghost use Rattle.std.specs.Result.{result_err};
ghost use Rattle.seal.specs.declared.secret.Secret.{Secret};
ghost use Rattle.seal.specs.Ways.{Stands};
ghost use Rattle.stream.specs.Readers.{held_of, Short};
ghost use Rattle.stream.specs.Receivers.{Arrives, Is, Nexts, Takes};
ghost use Rattle.stream.specs.Streams.{ending, Got, start};

use crate::reader::Reader;
use crate::receiver::Receiver;
use seal::way::Way;
use wire::codec::Codec;
use wire::fault::Fault;

// The whole message that is held.
fn take<M: Codec>(way: &mut Way, reader: &mut Reader) -> Result<M, Fault>
    ensures { Takes M.Codec.code way.old (held_of reader.old) result way.new (held_of reader.new) }
{
    let size = reader.open(way)?;
    let read = M::read(reader.inside(size));
    reader.clear();
    read
}

// What comes of a piece, where no fault came before.
fn arrived<M: Codec>(
    way: &mut Way,
    reader: &mut Reader,
    piece: &[u8],
) -> Result<Option<(M, usize)>, Fault>
    ensures { Short (held_of reader.old) → Arrives M.Codec.code way.old (held_of reader.old) piece.now result way.new (held_of reader.new) }
{
    let Some(used) = reader.gather(piece)? else {
        return Ok(None);
    };
    Ok(Some((take(way, reader)?, used)))
}

impl Receiver {
    // The receiving end of a way of which nothing has come.
    pub fn new(way: Way) -> Receiver
        ensures { (s : Secret) → Stands way s 0 → Is result s start }
    {
        Receiver {
            way,
            reader: Reader::new(),
            fault: None,
        }
    }

    // The next message of the stream, of which `piece` came now, and how many bytes of the piece it took.
    // None: all of the piece is taken in, and more is needed. A fault: the connection is to be cut.
    pub fn next<M: Codec>(&mut self, piece: &[u8]) -> Result<Option<(M, usize)>, Fault>
        ensures { Nexts M.Codec.code self.old piece.now result self.new }
    {
        self.unbroken()?;
        match arrived(&mut self.way, &mut self.reader, piece) {
            Err(fault) => {
                self.fault = Some(fault);
                Err(fault)
            }
            came => came,
        }
    }

    fn unbroken(&self) -> Result<(), Fault>
        ensures { result_err result ≡ self.now.fault }
    {
        self.fault.map_or(Ok(()), Err)
    }

    // The stream ends here, and may end with a fault.
    pub fn end(&self) -> Result<(), Fault>
        ensures { (s : Secret) (g : Got) → Is self.now s g → result_err result ≡ ending g }
    {
        self.unbroken()?;
        if !self.reader.is_empty() {
            return Err(Fault::Length);
        }
        Ok(())
    }
}
