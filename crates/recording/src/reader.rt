// A reader stands in a lent recording and moves by whole records. The work is done by functions on a slice and a place, which any
// caller may use; the struct is above them.
ghost use Rattle.std.specs.Prelude.{◌≡◌, ◌<◌, ◌^◌};
ghost use Rattle.laws.specs.BigEndian.{number2};
ghost use Rattle.recording.specs.Reading as reading;

// What stands at a place of a recording.
#[derive(Clone, Copy)]
pub enum Next {
    // a whole record: the place of its first byte after the length field, and the place behind its last
    Record(usize, usize),
    // a record that the end of the recording cuts
    Cut,
    End,
}

pub fn next_at(recording: &[u8], at: usize) -> Next
    ensures { result ≡ reading.next_at recording.now at }
{
    let Some(left) = recording.get(at..) else {
        return Next::End;
    };
    match left {
        [] => Next::End,
        [_] => Next::Cut,
        [high, low, rest @ ..] => {
            let length = size(*high, *low);
            if rest.len() < length {
                return Next::Cut;
            }
            Next::Record(at + 2, at + 2 + length)
        }
    }
}

// What a length field says: how many bytes of the record follow it.
pub fn size(high: u8, low: u8) -> usize
    ensures { (result ≡ number2 high low) × (result < 2 ^ 16) }
{
    usize::from(u16::from_be_bytes([high, low]))
}

// The place behind what stands there. A cut record is the last: the end of the recording is behind it.
pub fn after_at(recording: &[u8], at: usize) -> usize
    ensures { result ≡ reading.place_after recording.now at }
{
    match next_at(recording, at) {
        Next::Record(_, end) => end,
        Next::Cut => recording.len(),
        Next::End => at,
    }
}

// The recording is the caller's and is never changed; a reader that moved is a new one.
#[derive(Clone, Copy)]
pub struct Reader<'a> {
    pub recording: &'a [u8],
    pub at: usize,
}

impl<'a> Reader<'a> {
    // A reader at the start of a recording.
    pub fn new(recording: &'a [u8]) -> Reader<'a>
        ensures { (result.recording ≡ recording.entry) × (result.at ≡ 0) }
    {
        Reader { recording, at: 0 }
    }

    // What stands where the reader stands.
    pub fn next(self) -> Next
        ensures { result ≡ reading.next_at self.entry.recording.now self.entry.at }
    {
        next_at(self.recording, self.at)
    }

    // The reader behind what stands there.
    pub fn moved(self) -> Reader<'a>
        ensures { (result.recording ≡ self.entry.recording) × (result.at ≡ reading.place_after self.entry.recording.now self.entry.at) }
    {
        Reader {
            at: after_at(self.recording, self.at),
            ..self
        }
    }
}

// What a reader finds where it starts.
pub fn first(recording: &[u8]) -> Next
    ensures { result ≡ reading.next_at recording.now 0 }
{
    Reader::new(recording).next()
}
