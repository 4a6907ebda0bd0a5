// The functions as C calls them: false where a size is wrong or a call is refused, and then nothing is written.
#![tactic(auto)]

ghost use Rattle.std.specs.Prelude.{IsTrue, MatchResult, length, not, ◌≡◌, ◌+◌, ◌^◌, ◌≤◌, ◌<◌};
ghost use Rattle.chacha20.specs.Cipher.{Blocks, ChaCha20};
ghost use Rattle.hmac.specs.Hmac.{HMAC};
ghost use Rattle.sha256.specs.Message.{SHA256};

use sha256::Error;

// Writes a digest, if there is one.
// Kept: a flag, since C is answered by one.
fn written(answer: Result<[u8; 32], Error>, out: &mut [u8]) -> bool
    requires { length out.old ≡ 32 }
    ensures { MatchResult answer (λ digest. IsTrue result × (out.new ≡ digest)) (λ _. IsTrue (not result) × (out.new ≡ out.old)) }
{
    let Ok(digest) = answer else {
        return false;
    };
    out.copy_from_slice(&digest);
    true
}

#[unsafe(no_mangle)]
pub extern "C" fn crypto_sha256(message: &[u8], out: &mut [u8]) -> bool
    ensures written { IsTrue result → out.new ≡ SHA256 message.now }
    ensures kept { IsTrue (not result) → out.new ≡ out.old }
    ensures served { length out.old ≡ 32 → length message.now < 2 ^ 61 → IsTrue result }
{
    out.len() == 32 && written(sha256::hash(message), out)
}

#[unsafe(no_mangle)]
pub extern "C" fn crypto_hmac(key: &[u8], message: &[u8], out: &mut [u8]) -> bool
    ensures written { IsTrue result → out.new ≡ HMAC key.now message.now }
    ensures kept { IsTrue (not result) → out.new ≡ out.old }
    ensures served { length out.old ≡ 32 → length key.now < 2 ^ 61 → 64 + length message.now < 2 ^ 61 → IsTrue result }
{
    out.len() == 32 && written(hmac::hmac(key, message), out)
}

#[unsafe(no_mangle)]
pub extern "C" fn crypto_chacha20(
    key: &[u8; 32],
    counter: u32,
    nonce: &[u8; 12],
    text: &mut [u8],
) -> bool
    ensures written { IsTrue result → text.new ≡ ChaCha20 key.now counter nonce.now text.old }
    ensures kept { IsTrue (not result) → text.new ≡ text.old }
    ensures served { counter + Blocks (length text.old) ≤ 2 ^ 32 → IsTrue result }
{
    chacha20::apply(key, counter, nonce, text).is_ok()
}
