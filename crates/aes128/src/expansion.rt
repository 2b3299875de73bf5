// The key expansion of §5.2, four words at a time.
ghost use Rattle.std.specs.Prelude.{map, ◌≡◌};
ghost use Rattle.laws.specs.BigEndian.{bytes};
ghost use Rattle.aes128.specs.Cipher.{key_expansion};
ghost use Rattle.aes128.specs.KeyExpansion.{sub_word};
ghost use Rattle.aes128.specs.Steps.{next_round_key};
ghost use Rattle.aes128.specs.Words.{block_of};

use crate::columns::{Columns, to_columns};
use crate::substitution::SBox;
use crate::word::{double_word, rot_word, substitute};

// The round keys 0 to 10, each from the one before.
pub fn round_keys(s_box: SBox, key: [u8; 16]) -> [Columns; 11]
    ensures { map block_of result ≡ key_expansion key }
{
    let mut keys = [to_columns(key); 11];
    let mut rcon: u32 = 0x01000000;
    for i in 0..10 {
        keys[i + 1] = next_round_key(s_box, keys[i], rcon);
        rcon = double_word(rcon);
    }
    keys
}

// The four words after those of the round key k.
fn next_round_key(s_box: SBox, k: Columns, rcon: u32) -> Columns
    ensures { block_of result ≡ next_round_key (block_of k) (bytes 4 rcon) }
{
    let [w, x, y, z] = k;
    let a = w ^ (sub_word(s_box, rot_word(z)) ^ rcon);
    let b = x ^ a;
    let c = y ^ b;
    [a, b, c, z ^ c]
}

fn sub_word(s_box: SBox, w: u32) -> u32
    ensures { bytes 4 result ≡ sub_word (bytes 4 w) }
{
    substitute(s_box, w, w, w, w)
}
