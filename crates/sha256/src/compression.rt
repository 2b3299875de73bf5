// FIPS 180-4, §6.2.2: what one block does to the hash value.
ghost use Rattle.std.specs.Prelude.{◌≡◌, ◌+◌, ◌*◌, ◌<◌, length};
ghost use Rattle.sha256.specs.Padding.{word};
ghost use Rattle.sha256.specs.Compression as spec;
ghost use Rattle.sha256.specs.Steps.{message_words};

use crate::Hash;
use crate::functions::{big_sigma0, big_sigma1, ch, maj, small_sigma0, small_sigma1};

const K: [u32; 64] = [
    0x428a2f98, 0x71374491, 0xb5c0fbcf, 0xe9b5dba5, 0x3956c25b, 0x59f111f1, 0x923f82a4, 0xab1c5ed5,
    0xd807aa98, 0x12835b01, 0x243185be, 0x550c7dc3, 0x72be5d74, 0x80deb1fe, 0x9bdc06a7, 0xc19bf174,
    0xe49b69c1, 0xefbe4786, 0x0fc19dc6, 0x240ca1cc, 0x2de92c6f, 0x4a7484aa, 0x5cb0a9dc, 0x76f988da,
    0x983e5152, 0xa831c66d, 0xb00327c8, 0xbf597fc7, 0xc6e00bf3, 0xd5a79147, 0x06ca6351, 0x14292967,
    0x27b70a85, 0x2e1b2138, 0x4d2c6dfc, 0x53380d13, 0x650a7354, 0x766a0abb, 0x81c2c92e, 0x92722c85,
    0xa2bfe8a1, 0xa81a664b, 0xc24b8b70, 0xc76c51a3, 0xd192e819, 0xd6990624, 0xf40e3585, 0x106aa070,
    0x19a4c116, 0x1e376c08, 0x2748774c, 0x34b0bcb5, 0x391c0cb3, 0x4ed8aa4a, 0x5b9cca4f, 0x682e6ff3,
    0x748f82ee, 0x78a5636f, 0x84c87814, 0x8cc70208, 0x90befffa, 0xa4506ceb, 0xbef9a3f7, 0xc67178f2,
];

#[tactic(auto, unfolding(crate::specs::Compression::compress, crate::specs::Compression::added))]
pub fn compress(p: Hash, block: &[u8]) -> Hash
    requires { length block.now ≡ 64 }
    ensures { result ≡ spec.compress p block.now }
{
    let w = schedule(block);
    let s = rounds(p, w);
    Hash {
        a: s.a.wrapping_add(p.a),
        b: s.b.wrapping_add(p.b),
        c: s.c.wrapping_add(p.c),
        d: s.d.wrapping_add(p.d),
        e: s.e.wrapping_add(p.e),
        f: s.f.wrapping_add(p.f),
        g: s.g.wrapping_add(p.g),
        h: s.h.wrapping_add(p.h),
    }
}

fn schedule(block: &[u8]) -> [u32; 64]
    requires { length block.now ≡ 64 }
    ensures { result ≡ spec.schedule block.now 48 }
{
    let mut w = message_words(block);
    for i in 0..48 {
        w[i + 16] = small_sigma1(w[i + 14])
            .wrapping_add(w[i + 9])
            .wrapping_add(small_sigma0(w[i + 1]))
            .wrapping_add(w[i]);
    }
    w
}

// The block's sixteen words, with room for the words after them.
fn message_words(block: &[u8]) -> [u32; 64]
    requires { length block.now ≡ 64 }
    ensures { result ≡ message_words block.now }
{
    let mut w = [0u32; 64];
    for i in 0..16 {
        w[i] = word_at(block, i);
    }
    w
}

fn word_at(b: &[u8], i: usize) -> u32
    requires { i * 4 + 3 < length b.now }
    ensures { result ≡ word b.now i }
{
    let at = i * 4;
    u32::from_be_bytes([b[at], b[at + 1], b[at + 2], b[at + 3]])
}

// Four rounds to a turn: a round renames six of the eight variables, and four in a row spare most of the moves.
fn rounds(p: Hash, w: [u32; 64]) -> Hash
    ensures { result ≡ spec.rounds p w 64 }
{
    let mut s = p;
    for i in (0..64).step_by(4) {
        s = round(s, K[i], w[i]);
        s = round(s, K[i + 1], w[i + 1]);
        s = round(s, K[i + 2], w[i + 2]);
        s = round(s, K[i + 3], w[i + 3]);
    }
    s
}

fn round(s: Hash, k: u32, w: u32) -> Hash
    ensures { result ≡ spec.round s k w }
{
    let t1 = temp1(s, k, w);
    let t2 = big_sigma0(s.a).wrapping_add(maj(s.a, s.b, s.c));
    Hash {
        a: t1.wrapping_add(t2),
        b: s.a,
        c: s.b,
        d: s.c,
        e: s.d.wrapping_add(t1),
        f: s.e,
        g: s.f,
        h: s.g,
    }
}

// T1 of step 3.
fn temp1(s: Hash, k: u32, w: u32) -> u32
    ensures { result ≡ spec.T₁ s k w }
{
    s.h.wrapping_add(big_sigma1(s.e))
        .wrapping_add(ch(s.e, s.f, s.g))
        .wrapping_add(k)
        .wrapping_add(w)
}
