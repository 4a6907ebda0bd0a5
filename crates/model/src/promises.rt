// What holds after every list of events, for any programs.
ghost use Rattle.model.specs.Messages.{RealIsFair};
ghost use Rattle.model.specs.Promises.{AllForgotten, ClosedWasTaken, DrainEnds, ForgottenWasShown, InputIsPrefix, NothingOfBefore, OneUser, OutputIsPrefix, RanByItself, RefusedChangesNothing, RunsOnce, StartedByWhoMay, StatusInRange, WindowsHold};

// The real limits meet what the promises ask of limits.
pub fn real_is_fair()
    ensures { RealIsFair }
{}

// Whatever runs, or ran, was started in this login by who may.
pub fn started_by_who_may<S, E>()
    ensures { StartedByWhoMay S E }
{}

// All that run in a login run as one user.
pub fn one_user<S, E>()
    ensures { OneUser S E }
{}

// Each number runs at most once in a login, also after the server forgot it.
pub fn runs_once<S, E>()
    ensures { RunsOnce S E }
{}

// A new connection has nothing of the one before, which the server had forgotten.
pub fn nothing_of_before<S, E>()
    ensures { NothingOfBefore S E }
{}

// What came in for a program is a prefix of what was typed, and eof came only when that was all.
pub fn input_is_prefix<S, E>()
    ensures { InputIsPrefix S E }
{}

// What the user has is a prefix of what the program wrote; an exit is told truly, and only when that was all.
pub fn output_is_prefix<S, E>()
    ensures { OutputIsPrefix S E }
{}

// What the server forgot while the connection holds was all shown, and its exit told.
pub fn forgotten_was_shown<S, E>()
    ensures { ForgottenWasShown S E }
{}

// A channel is closed only when its exit was told and all output was taken.
pub fn closed_was_taken<S, E>()
    ensures { ClosedWasTaken S E }
{}

// A program's state and writes are what its own turns give on what it read.
pub fn ran_by_itself<S, E>()
    ensures { RanByItself S E }
{}

// Neither side holds more of a channel than its window, and no more waits to be sent than may.
pub fn windows_hold<S, E>()
    ensures { WindowsHold S E }
{}

// After the cut a program has ended once it had the turns that it had left.
pub fn drain_ends<S, E>()
    ensures { DrainEnds S E }
{}

// A status is at most 255.
pub fn status_in_range<S, E>()
    ensures { StatusInRange S E }
{}

// Once all have ended after the cut, all is forgotten.
pub fn all_forgotten<S, E>()
    ensures { AllForgotten S E }
{}

// A refused command changes nothing.
pub fn refused_changes_nothing<S, E>()
    ensures { RefusedChangesNothing S E }
{}
