// HMAC-SHA256: RFC 4231, the test cases whose keys are shorter than a block.
ghost use Rattle.std.specs.Prelude.{◌≡◌, ◌≤◌, length};
ghost use Rattle.laws.specs.Lists.{padded};

use crate::hex::line;

pub fn run(rt: &HostRuntime) {
    authenticated(rt, "RFC 4231 case 1", &[0x0bu8; 20], b"Hi There");
    authenticated(
        rt,
        "RFC 4231 case 2",
        b"Jefe",
        b"what do ya want for nothing?",
    );
    authenticated(rt, "RFC 4231 case 3", &[0xaau8; 20], &[0xddu8; 50]);
    authenticated(
        rt,
        "RFC 4231 case 4",
        b"\x01\x02\x03\x04\x05\x06\x07\x08\x09\x0a\x0b\x0c\x0d\x0e\x0f\x10\x11\x12\x13\x14\x15\x16\x17\x18\x19",
        &[0xcdu8; 50],
    );
    authenticated(
        rt,
        "RFC 4231 case 5",
        &[0x0cu8; 20],
        b"Test With Truncation",
    );
}

// One line: the authentication code of a message.
pub fn authenticated(rt: &HostRuntime, name: &str, key: &[u8], message: &[u8])
    requires { length key.now ≤ 64 }
{
    line(rt, name, &hmac_sha256::mac(filled(key), message));
}

// A key, filled up with zeros to a block.
fn filled(key: &[u8]) -> [u8; 64]
    requires { length key.now ≤ 64 }
    ensures { result ≡ padded 64 0 key.now }
{
    let mut block = [0; 64];
    basics::copy(&mut block, 0, key);
    block
}
