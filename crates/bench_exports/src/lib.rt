// The functions that bench/bench.c calls: each is one call of the function that is measured. The
// caller owns all memory and lends as many bytes as the types say, so no output is too short; C
// passes a slice as a pointer and a length, and an array as a pointer.
#![tactic(auto)]

ghost use Rattle.std.specs.Prelude.{◌++◌, ◌≡◌, drop, is_some, unwrap_or, if◌then◌else◌};
ghost use Rattle.additional_data.specs.Packet.{sealed, packet_size, opened};
ghost use Rattle.names.specs.Name.{reading, no_name, text_of};
ghost use Rattle.sha256.specs.Hash.{sha256};
ghost use Rattle.aes128.specs.Cipher.{cipher, inv_cipher};

use names::Name;

// Leaves the SHA-256 of msg in out.
#[unsafe(no_mangle)]
pub extern "C" fn bench_digest(msg: &[u8], out: &mut [u8; 32])
    ensures { out.new ≡ sha256 msg.now }
{
    *out = sha256::digest(msg);
}

// Encrypts block in place, by AES-128 with its key schedule.
#[unsafe(no_mangle)]
pub extern "C" fn bench_encrypt(key: &[u8; 16], block: &mut [u8; 16])
    ensures { block.new ≡ cipher key.now block.old }
{
    *block = aes128::encrypt(*key, *block);
}

// Decrypts block in place, by AES-128 with its key schedule.
#[unsafe(no_mangle)]
pub extern "C" fn bench_decrypt(key: &[u8; 16], block: &mut [u8; 16])
    ensures { block.new ≡ inv_cipher key.now block.old }
{
    *block = aes128::decrypt(*key, *block);
}

// Leaves the packet of the name in front of out; a text that is no name stands for the empty one.
#[unsafe(no_mangle)]
pub extern "C" fn bench_seal(key: &[u8; 16], nonce: &[u8; 8], text: &[u8], out: &mut [u8; 80])
    ensures { out.new ≡ sealed key.now nonce.now (text_of (unwrap_or (reading text.now) no_name)) ++ drop (packet_size (unwrap_or (reading text.now) no_name)) out.old }
{
    let name = names::read(text).unwrap_or(Name::none());
    additional_data::seal(*key, *nonce, name, out);
}

// 1 if the packet carries a name, and 0 if not.
#[unsafe(no_mangle)]
pub extern "C" fn bench_open(key: &[u8; 16], packet: &[u8]) -> u8
    ensures { result ≡ (if is_some (opened key.now packet.now) then 1 else 0) }
{
    u8::from(additional_data::open(*key, packet).is_some())
}
