// Which byte strings are UTF-8: RFC 3629, section 4.
ghost use Rattle.std.specs.Prelude.{Bool, true, false, List, ◌∷◌, ◌≡◌, ℕ};
ghost use Rattle.names.specs.Expected.{to_come, decides};
ghost use Rattle.names.specs.Utf8 as spec;
ghost use Rattle.names.specs.Utf8.{Range};

// What is still to come of a character: `more` bytes, the first of them from `low` to `high`, and each other a tail.
#[derive(Clone, Copy)]
struct Expected {
    more: u8,
    low: u8,
    high: u8,
}

// Whether `text` is whole characters, one after the other.
pub fn is_utf8(text: &[u8]) -> bool
    ensures { result ≡ spec.is_utf8 text.now }
{
    let mut expected = tails(0);
    for byte in text {
        let Some(rest) = expected.after(*byte) else {
            return false;
        };
        expected = rest;
    }
    expected.more == 0
}

impl Expected {
    // What is to come after `byte`; None if no character has it here.
    fn after(self, byte: u8) -> Option<Expected>
        ensures { (l : List ℕ) → spec.continues (to_come self) (byte ∷ l) ≡ decides result (λ rest. spec.continues rest l) }
    {
        if self.more == 0 {
            return begun(byte);
        }
        if byte < self.low || self.high < byte {
            return None;
        }
        Some(tails(self.more - 1))
    }
}

// What is to come after `byte` as the first of a character: the rows of the table.
fn begun(byte: u8) -> Option<Expected>
    ensures { (rest : List Range → Bool) → spec.begins spec.characters byte rest ≡ decides result rest }
{
    match byte {
        0x00..=0x7F => Some(tails(0)),
        0xC2..=0xDF => Some(tails(1)),
        0xE0 => Some(to_come(2, 0xA0, 0xBF)),
        0xE1..=0xEC => Some(tails(2)),
        0xED => Some(to_come(2, 0x80, 0x9F)),
        0xEE..=0xEF => Some(tails(2)),
        0xF0 => Some(to_come(3, 0x90, 0xBF)),
        0xF1..=0xF3 => Some(tails(3)),
        0xF4 => Some(to_come(3, 0x80, 0x8F)),
        _ => None,
    }
}

// `more` tails are to come: "UTF8-tail = %x80-BF".
fn tails(more: u8) -> Expected
    ensures { result ≡ record { more = more; low = 0x80; high = 0xBF } }
{
    to_come(more, 0x80, 0xBF)
}

// `more` bytes are to come, the first from `low` to `high`.
fn to_come(more: u8, low: u8, high: u8) -> Expected
    ensures { result ≡ record { more = more; low = low; high = high } }
{
    Expected { more, low, high }
}
