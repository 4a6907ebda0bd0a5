// What the calls' contracts say together.
ghost use Rattle.client.specs.IsClient.{IsClient};

// The value is a client, in a world of any programs.
pub fn is_client<S, E>()
    ensures { IsClient S E }
{}
