// SHA-256: the messages of FIPS 180-4, and lengths on both sides of the padding's boundaries.
use crate::hex::line;

pub fn run(rt: &HostRuntime) {
    published(rt);
    lengths(rt);
}

// The messages of FIPS 180-4.
fn published(rt: &HostRuntime) {
    message(rt, "FIPS 180-4 empty", b"");
    message(rt, "FIPS 180-4 abc", b"abc");
    message(
        rt,
        "FIPS 180-4 448 bits",
        b"abcdbcdecdefdefgefghfghighijhijkijkljklmklmnlmnomnopnopq",
    );
    million(rt, &[b'a'; 1000000]);
}

// The last length that pads to a block and the first that does not, at one block and at two; a
// whole block; and a long message.
fn lengths(rt: &HostRuntime) {
    let bytes = pattern();
    for (name, length) in [
        ("SHA-256 of 55 bytes", 55),
        ("SHA-256 of 56 bytes", 56),
        ("SHA-256 of 63 bytes", 63),
        ("SHA-256 of 64 bytes", 64),
        ("SHA-256 of 65 bytes", 65),
        ("SHA-256 of 119 bytes", 119),
        ("SHA-256 of 120 bytes", 120),
        ("SHA-256 of 4000 bytes", 4000),
    ] {
        if let Some(front) = bytes.get(..length) {
            message(rt, name, front);
        }
    }
}

// One line: the hash of a message.
fn message(rt: &HostRuntime, name: &str, message: &[u8]) {
    line(rt, name, &sha256::digest(message));
}

// One line: the hash of FIPS 180-4's long message.
fn million(rt: &HostRuntime, letters: &[u8; 1000000]) {
    message(rt, "FIPS 180-4 a million a", letters);
}

// Byte i is (7 i + 3) mod 256.
fn pattern() -> [u8; 4000] {
    let mut bytes = [0; 4000];
    let mut next = 3u8;
    for byte in bytes.iter_mut() {
        *byte = next;
        next = next.wrapping_add(7);
    }
    bytes
}
