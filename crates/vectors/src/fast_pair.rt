// The cryptographic test cases of the Fast Pair specification.
use crate::cipher::{decrypted, encrypted};
use crate::hex::line;
use crate::hmac::authenticated;

pub fn run(rt: &HostRuntime) {
    one_block(rt);
    anti_spoofing_key(rt);
    additional_data(rt);
}

// AES-128 of one block.
fn one_block(rt: &HostRuntime) {
    let key = *b"\xa0\xba\xf0\xbb\x95\x1f\xf7\xb6\xcf\x5e\x3f\x45\x61\xc3\x32\x1d";
    let plain = *b"\xf3\x0f\x4e\x78\x6c\x59\xa7\xbb\xf3\x87\x3b\x5a\x49\xba\x97\xea";
    let cipher = *b"\xac\x9a\x16\xf0\x95\x3a\x3f\x22\x3d\xd1\x0c\xf5\x36\xe0\x9e\x9c";
    encrypted(rt, "Fast Pair AES encrypt", key, plain);
    decrypted(rt, "Fast Pair AES decrypt", key, cipher);
}

// The hash of an ECDH secret, and the key that is its first 16 bytes.
fn anti_spoofing_key(rt: &HostRuntime) {
    let secret =
        *b"\x9d\xad\xe4\xf8\x6a\xc3\x48\x8b\xba\xc2\xac\x34\xb5\xfe\x68\xa0\xee\x5a\x67\x06\xf5\x43\xd9\x06\x1a\xd5\x78\x89\x49\x8a\xe6\xba";
    let hash = sha256::digest(&secret);
    line(rt, "Fast Pair SHA-256 of the ECDH secret", &hash);
    line(rt, "Fast Pair anti-spoofing AES key", &hash[..16]);
}

// HMAC-SHA256 of a nonce of 8 bytes and the ciphertext of a name: the key is the session key and zeros.
fn additional_data(rt: &HostRuntime) {
    authenticated(
        rt,
        "Fast Pair HMAC-SHA256",
        b"\x01\x23\x45\x67\x89\xab\xcd\xef\x01\x23\x45\x67\x89\xab\xcd\xef",
        b"\x00\x01\x02\x03\x04\x05\x06\x07\xee\x4a\x24\x83\x73\x80\x52\xe4\x4e\x9b\x2a\x14\x5e\x5d\xdf\xaa\x44\xb9\xe5\x53\x6a\xf4\x38\xe1\xe5\xc6",
    );
}
