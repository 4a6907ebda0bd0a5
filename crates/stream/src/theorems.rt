// What is promised of a stream, whatever bytes come.
// Kept: the last two are one for each way, as each is named elsewhere.
ghost use Rattle.stream.specs.Promises.{CutIsShort, Genuine, GenuineToClient, GenuineToServer, Misplaced, Moved, Undamaged};

// For any bytes what is taken is a prefix of what was sent, or a forged message is at hand.
pub fn genuine()
    ensures { Genuine }
{}

// Without damage all that came whole is taken.
pub fn undamaged()
    ensures { Undamaged }
{}

// A part of a sealed message is not taken for a whole one.
pub fn cut_is_short()
    ensures { CutIsShort }
{}

// A whole message in the wrong place is the fault of a wrong tag, or forged.
pub fn misplaced()
    ensures { Misplaced }
{}

// A message of another place is the fault of a wrong tag, or forged, or two texts have one tag.
pub fn moved()
    ensures { Moved }
{}

// What the server takes is a prefix of the messages that the client sent, or a forged one is at hand.
pub fn genuine_to_server()
    ensures { GenuineToServer }
{}

// What the client takes is a prefix of the messages that the server sent, or a forged one is at hand.
pub fn genuine_to_client()
    ensures { GenuineToClient }
{}
