// AES-128: FIPS 197, appendix A.1 (key expansion), B and C.1 (one block each).
use crate::hex::line;

pub fn run(rt: &HostRuntime) {
    key_expansion(rt);
    appendix_b(rt);
    appendix_c1(rt);
}

// A.1: the eleven round keys.
fn key_expansion(rt: &HostRuntime) {
    let names = [
        "FIPS 197 A.1 round key 0",
        "FIPS 197 A.1 round key 1",
        "FIPS 197 A.1 round key 2",
        "FIPS 197 A.1 round key 3",
        "FIPS 197 A.1 round key 4",
        "FIPS 197 A.1 round key 5",
        "FIPS 197 A.1 round key 6",
        "FIPS 197 A.1 round key 7",
        "FIPS 197 A.1 round key 8",
        "FIPS 197 A.1 round key 9",
        "FIPS 197 A.1 round key 10",
    ];
    for (name, key) in names.iter().zip(aes128::key_expansion(b_key()).iter()) {
        line(rt, name, key);
    }
}

// The key of appendices A.1 and B.
fn b_key() -> [u8; 16] {
    *b"\x2b\x7e\x15\x16\x28\xae\xd2\xa6\xab\xf7\x15\x88\x09\xcf\x4f\x3c"
}

fn appendix_b(rt: &HostRuntime) {
    let key = b_key();
    let plain = *b"\x32\x43\xf6\xa8\x88\x5a\x30\x8d\x31\x31\x98\xa2\xe0\x37\x07\x34";
    let cipher = *b"\x39\x25\x84\x1d\x02\xdc\x09\xfb\xdc\x11\x85\x97\x19\x6a\x0b\x32";
    encrypted(rt, "FIPS 197 B encrypt", key, plain);
    decrypted(rt, "FIPS 197 B decrypt", key, cipher);
}

fn appendix_c1(rt: &HostRuntime) {
    let key = *b"\x00\x01\x02\x03\x04\x05\x06\x07\x08\x09\x0a\x0b\x0c\x0d\x0e\x0f";
    let plain = *b"\x00\x11\x22\x33\x44\x55\x66\x77\x88\x99\xaa\xbb\xcc\xdd\xee\xff";
    let cipher = *b"\x69\xc4\xe0\xd8\x6a\x7b\x04\x30\xd8\xcd\xb7\x80\x70\xb4\xc5\x5a";
    encrypted(rt, "FIPS 197 C.1 encrypt", key, plain);
    decrypted(rt, "FIPS 197 C.1 decrypt", key, cipher);
}

// One line: the block encrypted.
pub fn encrypted(rt: &HostRuntime, name: &str, key: [u8; 16], block: [u8; 16]) {
    line(rt, name, &aes128::encrypt(key, block));
}

// One line: the block decrypted.
pub fn decrypted(rt: &HostRuntime, name: &str, key: [u8; 16], block: [u8; 16]) {
    line(rt, name, &aes128::decrypt(key, block));
}
