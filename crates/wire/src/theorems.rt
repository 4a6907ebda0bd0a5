// Writing and reading are each other's inverse.
// Kept: a theorem for each way, as each is named elsewhere.
ghost use Rattle.wire.specs.Inside.{ToClientApart, ToClientBack, ToServerApart, ToServerBack};

// What is written to the server is read back.
pub fn to_server_back()
    ensures { ToServerBack }
{}

// What is written to the client is read back.
pub fn to_client_back()
    ensures { ToClientBack }
{}

// No two messages to the server are written alike.
pub fn to_server_apart()
    ensures { ToServerApart }
{}

// No two messages to the client are written alike.
pub fn to_client_apart()
    ensures { ToClientApart }
{}
