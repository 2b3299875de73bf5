// HMAC-SHA256, RFC 2104, for a key of one block of 64 bytes: a shorter key is filled up with zeros.
#![tactic(auto)]

ghost use Rattle.std.specs.Prelude.{◌≡◌};
ghost use Rattle.hmac_sha256.specs.Hmac.{hmac, key_pad};

// The authentication code of `message`, of any length.
#[tactic(auto, unfolding(crate::specs::Hmac::hmac))]
pub fn mac(key: [u8; 64], message: &[u8]) -> [u8; 32]
    ensures { result ≡ hmac key message.now }
{
    let inner = sha256::digest_after(key_pad(key, 0x36), message);
    sha256::digest_after(key_pad(key, 0x5C), &inner)
}

// The key with each byte joined with `value` by exclusive or.
fn key_pad(mut key: [u8; 64], value: u8) -> [u8; 64]
    ensures { result ≡ key_pad value key }
{
    for byte in &mut key {
        *byte ^= value;
    }
    key
}
