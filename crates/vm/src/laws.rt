// The laws of the machine: each is the promise of a function that does nothing.
ghost use Rattle.vm.specs.Laws.{TurnIsShort, AsksWhatCanBe, WritesRound, ReadsRound, OneFlag};

// A turn is at most 10,000 instructions, and none before its last ends it.
pub fn turn_is_short()
    ensures { TurnIsShort }
{}

// Nothing is asked for that cannot be.
pub fn asks_what_can_be()
    ensures { AsksWhatCanBe }
{}

// What is written comes from addresses that go round.
pub fn writes_round()
    ensures { WritesRound }
{}

// What is read goes to addresses that go round, and of two bytes at one address the later stays.
pub fn reads_round()
    ensures { ReadsRound }
{}

// From a fresh machine on, at most one of the two flags is set.
pub fn one_flag()
    ensures { OneFlag }
{}
