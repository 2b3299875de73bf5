// The steps of a round, on a state whose four columns are words. The table comes from the caller: the compiler copies a constant to the
// stack wherever its address is taken, and so it does that once for all rounds.
ghost use Rattle.std.specs.Prelude.{◌≡◌, ◌<◌};
ghost use Rattle.laws.specs.BigEndian.{bytes};
ghost use Rattle.aes128.specs.Rounds.{sub_bytes, shift_rows, mix_columns, add_round_key};
ghost use Rattle.aes128.specs.Rounds.{inv_sub_bytes, inv_shift_rows, inv_mix_columns};
ghost use Rattle.aes128.specs.State.{column_of};
ghost use Rattle.aes128.specs.Words.{block_of};

use crate::inv_substitution::InvSBox;
use crate::substitution::SBox;
use crate::word::{inv_mix_column, mix_column, substitute};

// The columns of a state or of a round key, a word each.
pub type Columns = [u32; 4];

pub fn to_columns(b: [u8; 16]) -> Columns
    ensures { block_of result ≡ b }
{
    [column(b, 0), column(b, 1), column(b, 2), column(b, 3)]
}

// The word in column c.
fn column(b: [u8; 16], c: usize) -> u32
    requires { c < 4 }
    ensures { bytes 4 result ≡ column_of b c }
{
    let i = 4 * c;
    u32::from_be_bytes([b[i], b[1 + i], b[2 + i], b[3 + i]])
}

pub fn to_block(s: Columns) -> [u8; 16]
    ensures { result ≡ block_of s }
{
    let mut block = [0u8; 16];
    block[0..4].copy_from_slice(&s[0].to_be_bytes());
    block[4..8].copy_from_slice(&s[1].to_be_bytes());
    block[8..12].copy_from_slice(&s[2].to_be_bytes());
    block[12..16].copy_from_slice(&s[3].to_be_bytes());
    block
}

pub fn add_round_key(s: Columns, k: Columns) -> Columns
    ensures { block_of result ≡ add_round_key (block_of s) (block_of k) }
{
    [s[0] ^ k[0], s[1] ^ k[1], s[2] ^ k[2], s[3] ^ k[3]]
}

// SUBBYTES and SHIFTROWS, which takes row r of a column from the r-th column after it.
pub fn sub_bytes_shift_rows(s_box: SBox, s: Columns) -> Columns
    ensures { block_of result ≡ shift_rows (sub_bytes (block_of s)) }
{
    let [w, x, y, z] = s;
    [
        substitute(s_box, w, x, y, z),
        substitute(s_box, x, y, z, w),
        substitute(s_box, y, z, w, x),
        substitute(s_box, z, w, x, y),
    ]
}

// INVSHIFTROWS, which takes it from the r-th column before, and INVSUBBYTES.
pub fn inv_shift_rows_sub_bytes(inv_s_box: InvSBox, s: Columns) -> Columns
    ensures { block_of result ≡ inv_sub_bytes (inv_shift_rows (block_of s)) }
{
    let [w, x, y, z] = s;
    [
        substitute(inv_s_box, w, z, y, x),
        substitute(inv_s_box, x, w, z, y),
        substitute(inv_s_box, y, x, w, z),
        substitute(inv_s_box, z, y, x, w),
    ]
}

pub fn mix_columns(s: Columns) -> Columns
    ensures { block_of result ≡ mix_columns (block_of s) }
{
    s.map(mix_column)
}

pub fn inv_mix_columns(s: Columns) -> Columns
    ensures { block_of result ≡ inv_mix_columns (block_of s) }
{
    s.map(inv_mix_column)
}
