// A record from its fields: all of it goes to the lent output, or nothing.
ghost use Rattle.std.specs.Prelude.{MatchOption, ◌≡◌, [], ◌++◌, ◌+◌, ◌≤◌, ◌<◌, length, drop};
ghost use Rattle.laws.specs.BigEndian as big;
ghost use Rattle.recording.specs.Layout.{body_of};
ghost use Rattle.recording.specs.Writing.{in_a_row, body_report, body_placed};

use crate::{BODY_MAX, Kind, VERSION};
use basics::Answer;

// The record of a kind with these fields, one after the other, and how many bytes it has.
pub fn write(kind: Kind, fields: &[&[u8]], out: &mut [u8]) -> Result<usize, Answer>
    ensures value { result ≡ body_report (body_of kind (in_a_row fields.now)) out.old }
    ensures out_after { out.new ≡ body_placed (body_of kind (in_a_row fields.now)) out.old }
{
    let Some(size) = body_size(fields) else {
        return Err(Answer::WrongLength);
    };
    if out.len() < 2 + size {
        return Err(Answer::OutputTooShort);
    }
    place(kind, size, fields, out);
    Ok(2 + size)
}

// How many bytes the fields and what stands before them have; None if more than a record may have.
fn body_size(fields: &[&[u8]]) -> Option<usize>
    ensures { MatchOption result
        (1024 < 2 + length (in_a_row fields.now))
        (λ n. (n ≡ 2 + length (in_a_row fields.now)) × (n ≤ 1024)) }
{
    let mut size = 2;
    for field in fields {
        if BODY_MAX - size < field.len() {
            return None;
        }
        size += field.len();
    }
    Some(size)
}

// The record in an output that has room for it; `size` is that of its body.
fn place(kind: Kind, size: usize, fields: &[&[u8]], out: &mut [u8])
    requires size_value { size ≡ 2 + length (in_a_row fields.now) }
    requires size_in_bounds { 2 + size ≤ length out.old }
    ensures { out.new ≡ big.bytes 2 size ++ body_of kind (in_a_row fields.now) ++ drop (2 + size) out.old }
{
    out[..4].copy_from_slice(&front(kind, size));
    let mut at = 4;
    for field in fields {
        let end = at + field.len();
        fill(&mut out[at..end], field);
        at = end;
    }
}

// One field. Byte by byte, since `copy_from_slice` calls `memmove`, and the recorder's part of the archive calls nothing from outside.
fn fill(place: &mut [u8], field: &[u8])
    requires { length place.old ≡ length field.now }
    ensures { place.new ≡ field.now }
{
    for (i, byte) in field.iter().enumerate() {
        place[i] = *byte;
    }
}

// Length field, version and kind.
fn front(kind: Kind, size: usize) -> [u8; 4]
    ensures { result ≡ big.bytes 2 size ++ body_of kind [] }
{
    let [high, low] = length_field(size);
    [high, low, VERSION, kind.byte()]
}

// A length in two bytes, the most significant first; of one that has more bits, the lowest sixteen.
pub fn length_field(length: usize) -> [u8; 2]
    ensures { result ≡ big.bytes 2 «length» }
{
    let [.., high, low] = length.to_be_bytes();
    [high, low]
}
