// A way made from what both sides know of it.
ghost use Rattle.std.specs.Prelude.{◌≡◌};
ghost use Rattle.seal.specs.Ways.{Stands};

use crate::secret::Secret;
use crate::tags::Purpose;
use crate::way::Way;
use hmac::Key;

impl Way {
    // The way of a new connection, of which no message is sealed or opened.
    pub fn new(secret: &Secret) -> Way
        ensures { Stands result secret.now 0 }
    {
        let key = Key::new(&secret.key).unwrap();
        Way {
            key: Purpose::Key.begun(&key, secret).finish(),
            mac: Purpose::Message.begun(&key, secret),
            next: Some(0),
        }
    }
}
