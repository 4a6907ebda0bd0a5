// Tags of a connection's key, each begun with a mark and both nonces.
ghost use Rattle.std.specs.Prelude.{◌≡◌, ℕ, ◌+◌, ◌^◌, ◌<◌, List, ◌∷◌, ◌++◌, length};
ghost use Rattle.hmac.specs.Calls.{Prepared, Takes};
ghost use Rattle.seal.specs.Frames.{key_mark, tag_mark};
ghost use Rattle.seal.specs.Marks.{mark_of};

use crate::secret::{Direction, Secret};
use hmac::{Key, Mac};

// What a tag is for: it is the key of a way, or it is a message's.
#[derive(Clone, Copy)]
pub enum Purpose {
    Key,
    Message,
}

impl Purpose {
    // No two purposes and directions have one mark.
    fn mark(self, direction: Direction) -> u8
        ensures { result ≡ mark_of self direction }
    {
        match (self, direction) {
            (Purpose::Key, Direction::There) => 1,
            (Purpose::Key, Direction::Back) => 2,
            (Purpose::Message, Direction::There) => 3,
            (Purpose::Message, Direction::Back) => 4,
        }
    }

    // A tag under way that has taken in its mark and both nonces.
    pub fn begun(self, key: &Key, secret: &Secret) -> Mac
        ensures { (k : List ℕ) → Prepared key.now k → Takes result k (mark_of self secret.now.direction ∷ (secret.now.client ++ secret.now.server)) }
    {
        let mut mac = key.start();
        // 65 bytes are never too many.
        let _ = mac.update(&[self.mark(secret.direction)]);
        let _ = mac.update(&secret.client);
        let _ = mac.update(&secret.server);
        mac
    }
}
