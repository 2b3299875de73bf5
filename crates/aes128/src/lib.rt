// AES-128: FIPS 197, one block encrypted (§5.1) and decrypted (§5.3), with the key expansion (§5.2).
// specs/ has the standard's definitions; proofs/Inverse.antt proves that decryption undoes encryption.
#![tactic(auto)]

mod columns;
mod expansion;
mod inv_substitution;
mod substitution;
mod word;

ghost use Rattle.std.specs.Prelude.{◌≡◌};
ghost use Rattle.aes128.specs.Cipher.{key_expansion, cipher, inv_cipher};

use columns::{
    add_round_key, inv_mix_columns, inv_shift_rows_sub_bytes, mix_columns, sub_bytes_shift_rows,
    to_block, to_columns,
};
use expansion::round_keys;
use inv_substitution::{INV_SBOX, InvSBox};
use substitution::{SBOX, SBox};

// CIPHER: nine whole rounds, and a last one that mixes no columns.
pub fn encrypt(key: [u8; 16], block: [u8; 16]) -> [u8; 16]
    ensures { result ≡ cipher key block }
{
    let s_box = SBox { table: &SBOX };
    let keys = round_keys(s_box, key);
    let mut s = add_round_key(to_columns(block), keys[0]);
    for i in 1..10 {
        s = add_round_key(mix_columns(sub_bytes_shift_rows(s_box, s)), keys[i]);
    }
    to_block(add_round_key(sub_bytes_shift_rows(s_box, s), keys[10]))
}

// INVCIPHER: the inverse of each step, with the round keys from the last to the first.
pub fn decrypt(key: [u8; 16], block: [u8; 16]) -> [u8; 16]
    ensures { result ≡ inv_cipher key block }
{
    let inv_s_box = InvSBox { table: &INV_SBOX };
    let keys = round_keys(SBox { table: &SBOX }, key);
    let mut s = add_round_key(to_columns(block), keys[10]);
    for i in (1..10).rev() {
        s = inv_mix_columns(add_round_key(inv_shift_rows_sub_bytes(inv_s_box, s), keys[i]));
    }
    to_block(add_round_key(inv_shift_rows_sub_bytes(inv_s_box, s), keys[0]))
}

// KEYEXPANSION: the round keys 0 to 10, as blocks.
pub fn key_expansion(key: [u8; 16]) -> [[u8; 16]; 11]
    ensures { result ≡ key_expansion key }
{
    let keys = round_keys(SBox { table: &SBOX }, key);
    let mut blocks = [key; 11];
    for (i, k) in keys.iter().enumerate() {
        blocks[i] = to_block(*k);
    }
    blocks
}
