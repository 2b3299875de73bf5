// SHA-256, FIPS 180-4: the digest of a message of whole bytes (§5.1.1, §6.2).
#![tactic(auto)]

mod compression;
mod functions;

ghost use Rattle.std.specs.Prelude.{◌≡◌, ◌+◌, ◌*◌, ◌/◌, ◌%◌, ◌^◌, ◌≤◌, ◌++◌, length};
ghost use Rattle.std.proofs.Math.Seq.{paste};
ghost use Rattle.laws.specs.BigEndian.{bytes};
ghost use Rattle.sha256.specs.Constants.{initial_hash};
ghost use Rattle.sha256.specs.Hash.{hashed, joined, sha256};
ghost use Rattle.sha256.specs.Steps.{digest_rest, last_blocks};

// The eight words of a hash value, H0 to H7, or of the working variables a to h.
#[derive(Clone, Copy)]
pub struct Hash {
    pub a: u32,
    pub b: u32,
    pub c: u32,
    pub d: u32,
    pub e: u32,
    pub f: u32,
    pub g: u32,
    pub h: u32,
}

// The blocks that hold a message's last bytes and its padding: `bytes[..end]`; the other bytes are zero.
#[derive(Clone, Copy)]
struct LastBlocks {
    bytes: [u8; 128],
    end: usize,
}

// The digest of `msg`, of any length. Whole blocks are read where they lie; only the last bytes are copied.
pub fn digest(msg: &[u8]) -> [u8; 32]
    ensures { result ≡ sha256 msg.now }
{
    digest_rest(initial(), msg, msg.len())
}

// The digest of `block` and then `msg`, of any length, which is not copied. The sum cannot overflow: a slice has fewer than 2^63 bytes.
pub fn digest_after(block: [u8; 64], msg: &[u8]) -> [u8; 32]
    ensures { result ≡ sha256 (block ++ msg.now) }
{
    let h = absorb(initial(), &block);
    digest_rest(h, msg, 64 + msg.len())
}

// The digest of a message of `n` bytes that ends with `rest`, where the whole blocks before it have left the hash value `h`.
fn digest_rest(h: Hash, rest: &[u8], n: usize) -> [u8; 32]
    requires { length rest.now % 64 ≡ n % 64 }
    ensures { result ≡ digest_rest h rest.now n }
{
    let s = absorb(h, rest);
    let last = last_blocks(rest.chunks_exact(64).remainder(), n);
    to_bytes(absorb(s, &last.bytes[..last.end]))
}

fn initial() -> Hash
    ensures { result ≡ initial_hash }
{
    Hash {
        a: 0x6a09e667,
        b: 0xbb67ae85,
        c: 0x3c6ef372,
        d: 0xa54ff53a,
        e: 0x510e527f,
        f: 0x9b05688c,
        g: 0x1f83d9ab,
        h: 0x5be0cd19,
    }
}

// The whole blocks of `src`, in order.
fn absorb(h: Hash, src: &[u8]) -> Hash
    ensures { result ≡ hashed h src.now (length src.now / 64) }
{
    let mut s = h;
    for block in src.chunks_exact(64) {
        s = compression::compress(s, block);
    }
    s
}

// `rest`, the bytes after the last whole block of a message of `n` bytes, and the message's padding.
fn last_blocks(rest: &[u8], n: usize) -> LastBlocks
    requires { length rest.now ≡ n % 64 }
    ensures { result ≡ last_blocks rest.now n }
{
    let used = rest.len();
    let end = (used + 9).next_multiple_of(64);
    let mut bytes = [0u8; 128];
    bytes[..used].copy_from_slice(rest);
    bytes[used] = 0x80;
    bytes[end - 8..end].copy_from_slice(&(n << 3).to_be_bytes());
    LastBlocks { bytes, end }
}

// H0 to H7, one after the other.
fn to_bytes(s: Hash) -> [u8; 32]
    ensures { result ≡ joined s }
{
    let mut out = [0u8; 32];
    out[0..4].copy_from_slice(&s.a.to_be_bytes());
    out[4..8].copy_from_slice(&s.b.to_be_bytes());
    out[8..12].copy_from_slice(&s.c.to_be_bytes());
    out[12..16].copy_from_slice(&s.d.to_be_bytes());
    out[16..20].copy_from_slice(&s.e.to_be_bytes());
    out[20..24].copy_from_slice(&s.f.to_be_bytes());
    out[24..28].copy_from_slice(&s.g.to_be_bytes());
    out[28..32].copy_from_slice(&s.h.to_be_bytes());
    out
}
