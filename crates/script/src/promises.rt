// What is promised of every script.
ghost use Rattle.script.specs.Good.{ReadsBack, ReadsGood};

// What is written of commands whose values are in range is read as these commands.
pub fn reads_back()
    ensures { ReadsBack }
{}

// The values of every command that is read are in range.
pub fn reads_good()
    ensures { ReadsGood }
{}
