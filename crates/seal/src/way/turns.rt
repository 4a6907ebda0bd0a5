// The cipher and the tag of one message.
ghost use Rattle.std.specs.Prelude.{◌≡◌, ◌+◌, ◌≤◌, ◌↔◌, IsTrue, ◌∷◌, length};
ghost use Rattle.hmac.specs.Hmac.{HMAC};
ghost use Rattle.sha256.specs.Message.{Bytes64};
ghost use Rattle.seal.specs.Frames.{body_of, tag, tag_of, tag_text, turned};
ghost use Rattle.seal.specs.Ways.{next_of, WhereStands};

use crate::way::Way;
use octets::equal;

// The number behind another, where there is one.
pub fn after(number: u64) -> Option<u64>
    ensures { next_of result ≡ number + 1 }
{
    number.checked_add(1)
}

// Four zeros and the number.
fn nonce(number: u64) -> [u8; 12]
    ensures { result ≡ 0 ∷ 0 ∷ 0 ∷ 0 ∷ Bytes64 number }
{
    let [a, b, c, d, e, f, g, h] = number.to_be_bytes();
    [0, 0, 0, 0, a, b, c, d, e, f, g, h]
}

impl Way {
    // Encrypts, which is decrypts too.
    pub(crate) fn turn(&self, number: u64, text: &mut [u8])
        requires { length text.old ≤ 1082 }
        ensures { WhereStands self.now (λ s _. text.new ≡ turned s number text.old) }
    {
        // The counter has blocks for far more.
        let _ = chacha20::apply(&self.key, 0, &nonce(number), text);
    }

    // The tag of a length and encrypted inside; its first 16 bytes go over the connection.
    pub(crate) fn tag(&self, number: u64, body: &[u8]) -> [u8; 32]
        requires { length body.now ≤ 1100 }
        ensures { WhereStands self.now (λ s _. result ≡ HMAC s.key (tag_text s number body.now)) }
    {
        let mut mac = self.mac;
        // Neither is ever too many.
        let _ = mac.update(&number.to_be_bytes());
        let _ = mac.update(body);
        mac.finish()
    }

    // Whether a whole message has the tag of a number.
    pub(crate) fn fits(&self, number: u64, frame: &[u8]) -> bool
        requires { (18 ≤ length frame.now) × (length frame.now ≤ 1100) }
        ensures { WhereStands self.now (λ s _. IsTrue result ↔ (tag_of frame.now ≡ tag s number (body_of frame.now))) }
    {
        let (body, tag) = frame.split_at(frame.len() - 16);
        equal(tag, &self.tag(number, body)[..16])
    }
}
