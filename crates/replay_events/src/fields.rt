// The fields of a record, taken off its front.
ghost use Rattle.std.specs.Prelude.{MatchOption, true, false, eqb, ◌≡◌, ◌<◌, ◌≤◌, min, length, drop, get_or};
ghost use Rattle.recording.specs.Reading.{number_at, is_flag};

use basics::{Link, Moment};

// Link and clock of an event on a link, and the fields behind them.
pub fn on_link(record: &[u8]) -> Option<(Link, Moment, &[u8])>
    ensures { MatchOption result
        (length «record».now < 11)
        (λ e. (11 ≤ length «record».now) × (e.0.0 ≡ get_or «record».now 2 0) × (e.1.0 ≡ number_at 3 8 «record».now) × (e.2.now ≡ drop 11 «record».now)) }
{
    let [_, _, link, rest @ ..] = record else {
        return None;
    };
    let (clock, fields) = rest.split_first_chunk()?;
    Some((Link(*link), Moment(u64::from_be_bytes(*clock)), fields))
}

// The clock of an event on no link, and the fields behind it.
pub fn on_device(record: &[u8]) -> Option<(Moment, &[u8])>
    ensures { MatchOption result
        (length «record».now < 10)
        (λ e. (10 ≤ length «record».now) × (e.0.0 ≡ number_at 2 8 «record».now) × (e.1.now ≡ drop 10 «record».now)) }
{
    let [_, _, rest @ ..] = record else {
        return None;
    };
    let (clock, fields) = rest.split_first_chunk()?;
    Some((Moment(u64::from_be_bytes(*clock)), fields))
}

// The one byte that the fields are; None if there are none or more.
pub fn only(fields: &[u8]) -> Option<u8>
    ensures { MatchOption result
        (length fields.now ≡ 1 → ⊥)
        (λ b. (length fields.now ≡ 1) × (b ≡ get_or fields.now 0 0)) }
{
    match fields {
        [byte] => Some(*byte),
        _ => None,
    }
}

// A flag; None for a byte that is none.
pub fn flag(byte: u8) -> Option<bool>
    ensures { MatchOption result (is_flag byte ≡ false) (λ on. (is_flag byte ≡ true) × (on ≡ eqb byte 1)) }
{
    match byte {
        0 => Some(false),
        1 => Some(true),
        _ => None,
    }
}

// How much of an output is lent: the length that was recorded, and at most `most`.
pub fn lent(recorded: u64, most: usize) -> usize
    ensures { result ≡ min recorded most }
{
    recorded.min(most as u64) as usize
}
