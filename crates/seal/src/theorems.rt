// What sealing and opening promise together.
ghost use Rattle.seal.specs.Laws.{OpensSealed};

// What was sealed is opened.
pub fn opens_sealed()
    ensures { OpensSealed }
{}
