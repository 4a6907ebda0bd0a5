// What is promised while the connection holds: what comes, in how many steps, and what is dropped.
ghost use Rattle.model.specs.Dropped.{LateReplyDropped, LateRequestDropped, LaterLoginRefused, WrongLoginCounts};
ghost use Rattle.model.specs.Progress.{Settles, CanSettle, OutputComes, InputComes, AllInputComes, RightLoginAccepted, CanLogIn, CanStart};

// A reply for a channel that was refused or closed changes nothing at the client.
pub fn late_reply_dropped()
    ensures { LateReplyDropped }
{}

// A request for a channel that was forgotten or refused changes nothing at the server.
pub fn late_request_dropped<S, E>()
    ensures { LateRequestDropped S E }
{}

// A login after one was accepted changes nothing.
pub fn later_login_refused<S, E>()
    ensures { LaterLoginRefused S E }
{}

// A login that is not accepted counts as a try, and the last that may fail takes the server down.
pub fn wrong_login_counts<S, E>()
    ensures { WrongLoginCounts S E }
{}

// A right login is accepted when it arrives while nobody is.
pub fn right_login_accepted<S, E>()
    ensures { RightLoginAccepted S E }
{}

// Any order of arrivals comes to an end with no fault, unless logins on the way take the server down.
pub fn settles<S, E>()
    ensures { Settles S E }
{}

// Arrivals empty both ways.
pub fn can_settle<S, E>()
    ensures { CanSettle S E }
{}

// All that a program wrote, and its exit, come to a user who takes them.
pub fn output_comes<S, E>()
    ensures { OutputComes S E }
{}

// What was typed comes in as far as there is room, with eof where all fits.
pub fn input_comes<S, E>()
    ensures { InputComes S E }
{}

// A program that reads gets all that was typed.
pub fn all_input_comes<S, E>()
    ensures { AllInputComes S E }
{}

// A right login is accepted, and the client is told.
pub fn can_log_in<S, E>()
    ensures { CanLogIn S E }
{}

// A start by who may is told to run.
pub fn can_start<S, E>()
    ensures { CanStart S E }
{}
