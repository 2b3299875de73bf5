// Document 02, request (viii): a recording that arrives in parts. Between two parts at most one unfinished record is held; of one that
// is too long nothing is held but how much of it is still to be skipped.
#![tactic(auto)]

ghost use Rattle.std.specs.Prelude.{true, ◌≡◌, ◌+◌, ◌<◌, ◌≤◌, length, drop};
ghost use Rattle.reassembly.specs.Parts as spec;
ghost use Rattle.reassembly.specs.Parts.{Open, Holds, Filling, Unended};

use recording::reader;

// The most bytes of a record after its length field, and with it.
const LENGTH_MAX: usize = recording::BODY_MAX;

pub const RECORD_MAX: usize = 2 + LENGTH_MAX;
// The last byte of a record is never held.
const HELD_MAX: usize = RECORD_MAX - 1;

// The first `count` of `bytes` are those of a record that is not whole yet, with its length field; the others are zero. While `skip`
// bytes of a record that is too long are still to come, `count` is 0.
#[derive(Clone, Copy)]
pub struct Unfinished {
    pub bytes: [u8; RECORD_MAX],
    pub count: usize,
    pub skip: usize,
}

// The record that began in an earlier part.
#[derive(Clone, Copy)]
pub enum Found {
    // it has not ended
    Nothing,
    // it is whole: the bytes held up to this place
    Held(usize),
    // it has ended, and was too long
    TooLong,
}

// What is held then, the place where the part is read on, and whether the record has ended.
#[derive(Clone, Copy)]
pub struct Taken {
    pub next: Unfinished,
    pub at: usize,
    pub found: Found,
}

impl Unfinished {
    pub fn none() -> Unfinished
        ensures { result ≡ spec.none }
    {
        skipping(0)
    }

    // Whether anything is held: a recording that ends here then ends with a cut record.
    pub fn is_cut(self) -> bool
        requires { Open self }
        ensures { result ≡ spec.is_cut self }
    {
        self.skip != 0 || self.count != 0
    }

    // What is left of a part from a place on, where no record is whole.
    pub fn begin(part: &[u8], at: usize) -> Unfinished
        requires { (at ≤ length part.now) × Unended (drop at part.now) }
        ensures { result ≡ spec.unfinished (drop at part.now) }
    {
        let left = part.len() - at;
        if left < 2 {
            return rest(part, at);
        }
        let size = reader::size(part[at], part[at + 1]);
        if LENGTH_MAX < size {
            return skipping(size - (left - 2));
        }
        rest(part, at)
    }

    // Reads a part from a place on, up to the end of the record that is held, or of the part.
    pub fn read_on(self, part: &[u8], at: usize) -> Taken
        requires { Open self × (spec.is_cut self ≡ true) }
        ensures { result ≡ spec.taken self part.now at }
    {
        if part.len() <= at {
            Taken {
                next: self,
                at,
                found: Found::Nothing,
            }
        } else if self.skip != 0 {
            skip_on(self.skip, part, at)
        } else if self.count == 1 {
            self.with_length(part, at)
        } else {
            self.fill(reader::size(self.bytes[0], self.bytes[1]), part, at)
        }
    }

    // Fields that may hold anything, read again; none where they hold no record that is not whole.
    pub fn read_again(self) -> Option<Unfinished>
        ensures { result ≡ spec.read_again self }
    {
        if self.count == 0 {
            Some(skipping(self.skip))
        } else if self.skip == 0 {
            self.bytes_again()
        } else {
            None
        }
    }

    // Bytes of a record, if that is not whole and not too long.
    fn bytes_again(self) -> Option<Unfinished>
        requires { self.skip ≡ 0 }
        ensures { result ≡ spec.read_again self }
    {
        let count = self.count;
        if HELD_MAX < count {
            return None;
        }
        if count < 2 {
            return Some(rest(&self.bytes[..count], 0));
        }
        let size = reader::size(self.bytes[0], self.bytes[1]);
        if LENGTH_MAX < size || size <= count - 2 {
            return None;
        }
        Some(rest(&self.bytes[..count], 0))
    }

    // The second byte of the length field comes.
    fn with_length(self, part: &[u8], at: usize) -> Taken
        requires { Holds self × (self.count ≡ 1) × (at < length part.now) }
        ensures { result ≡ spec.taken self part.now at }
    {
        let size = reader::size(self.bytes[0], part[at]);
        if LENGTH_MAX < size {
            return skip_on(size, part, at + 1);
        }
        let begun = self.with(&part[at..at + 1]);
        begun.fill(size, part, at + 1)
    }

    // The length field is there and says `size`; a record of no more bytes may be whole by it.
    fn fill(self, size: usize, part: &[u8], at: usize) -> Taken
        requires { Filling self size × (at ≤ length part.now) }
        ensures { result ≡ spec.taken self part.now at }
    {
        let wanted = 2 + size - self.count;
        if part.len() - at < wanted {
            return Taken {
                next: self.with(&part[at..]),
                at: part.len(),
                found: Found::Nothing,
            };
        }
        Taken {
            next: self.with(&part[at..at + wanted]),
            at: at + wanted,
            found: Found::Held(2 + size),
        }
    }

    // The bytes held, and more behind them.
    fn with(self, more: &[u8]) -> Unfinished
        requires { self.count + length more.now ≤ 1026 }
        ensures { result ≡ spec.longer self more.now }
    {
        let mut bytes = self.bytes;
        basics::copy(&mut bytes, self.count, more);
        Unfinished {
            bytes,
            count: self.count + more.len(),
            skip: 0,
        }
    }
}

// Nothing is held but how much is to be skipped.
fn skipping(skip: usize) -> Unfinished
    ensures { result ≡ spec.skipping skip }
{
    Unfinished {
        bytes: [0; RECORD_MAX],
        count: 0,
        skip,
    }
}

// The bytes of a part from a place on are held.
fn rest(part: &[u8], at: usize) -> Unfinished
    requires { (at ≤ length part.now) × (length part.now ≤ at + 1026) }
    ensures { result ≡ spec.longer spec.none (drop at part.now) }
{
    skipping(0).with(&part[at..])
}

// The part goes on in a record that is too long.
fn skip_on(skip: usize, part: &[u8], at: usize) -> Taken
    requires { at ≤ length part.now }
    ensures { result ≡ spec.skipped skip part.now at }
{
    let left = part.len() - at;
    if left < skip {
        return Taken {
            next: skipping(skip - left),
            at: part.len(),
            found: Found::Nothing,
        };
    }
    Taken {
        next: skipping(0),
        at: at + skip,
        found: Found::TooLong,
    }
}
