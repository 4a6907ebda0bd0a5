// The worked cases, one theorem over their table.
ghost use Rattle.model.specs.Cases.{CasesHold};

// Every row of the table holds of the definitions, under the real limits.
pub fn cases_hold()
    ensures { CasesHold }
{}
