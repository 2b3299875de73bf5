// Words of 32 bits, the byte of row 0 highest: all four bytes are worked on at once.
ghost use Rattle.std.specs.Prelude.{◌≡◌, ℕ};
ghost use Rattle.laws.specs.BigEndian.{bytes};
ghost use Rattle.aes128.specs.KeyExpansion.{rot_word};
ghost use Rattle.aes128.specs.Rounds.{mix_matrix, inv_mix_matrix};
ghost use Rattle.aes128.specs.Steps.{doubled, multiplied, substituted};

// ROTWORD.
pub fn rot_word(w: u32) -> u32
    ensures { bytes 4 result ≡ rot_word (bytes 4 w) }
{
    w.rotate_left(8)
}

// A substitution of a byte: SBOX or INVSBOX.
pub trait SubstitutionBox: Copy {
    ghost image: { ℕ → ℕ };

    fn look_up(self, byte: u8) -> u8
        ensures { result ≡ image byte };
}

// The first byte of w, the second of x, the third of y and the fourth of z, each substituted. Both directions share it.
pub fn substitute<B: SubstitutionBox>(s_box: B, w: u32, x: u32, y: u32, z: u32) -> u32
    ensures { bytes 4 result ≡ substituted B.image w x y z }
{
    u32::from_be_bytes([
        s_box.look_up(w.to_be_bytes()[0]),
        s_box.look_up(x.to_be_bytes()[1]),
        s_box.look_up(y.to_be_bytes()[2]),
        s_box.look_up(z.to_be_bytes()[3]),
    ])
}

// XTIMES of §4.2 at all four bytes, with no branch: where a byte's highest bit is set the mask is {7f}, which keeps all of {1b}.
pub fn double_word(w: u32) -> u32
    ensures { bytes 4 result ≡ doubled (bytes 4 w) }
{
    let high = w & 0x80808080;
    let mask = high - (high >> 7);
    ((w & 0x7f7f7f7f) << 1) ^ (mask & 0x1b1b1b1b)
}

// MIXCOLUMNS of one column: where a is a row's byte and b, c and d are those after it, {02}(a + b) + b + c + d.
pub fn mix_column(w: u32) -> u32
    ensures { bytes 4 result ≡ multiplied mix_matrix (bytes 4 w) }
{
    let next = rot_word(w);
    let pair = w ^ next;
    double_word(pair) ^ next ^ rot_word(rot_word(pair))
}

// INVMIXCOLUMNS of one column: its matrix is that of MIXCOLUMNS times the one whose first row is {05}, {00}, {04}, {00}.
pub fn inv_mix_column(w: u32) -> u32
    ensures { bytes 4 result ≡ multiplied inv_mix_matrix (bytes 4 w) }
{
    let pair = w ^ rot_word(rot_word(w));
    mix_column(w ^ double_word(double_word(pair)))
}
