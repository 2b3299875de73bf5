// Document 02, request (iii): a line as text: number, kind, answer and list size, with single spaces.
#![tactic(auto)]

ghost use Rattle.std.specs.Prelude.{◌++◌, ◌≡◌, ◌+◌, ◌≤◌, length};
ghost use Rattle.std.proofs.Math.Seq.{paste};
ghost use Rattle.replay_text.specs.Text as spec;

use recording::Kind;
use replay::Line;

// Three numbers of at most 20 digits, the longest kind name with 19 letters, three spaces and the end of the line.
pub const LINE_MAX: usize = 83;

// The line in `out` from `at` on; the place behind it is handed back.
pub fn put_line(out: &mut [u8], at: usize, line: Line) -> usize
    requires { at + 83 ≤ length out.old }
    ensures value { (result ≡ at + length (spec.text line)) × (result ≤ at + 83) }
    ensures out_after { out.new ≡ paste out.old at (spec.text line) (length (spec.text line)) }
{
    let after_number = put_number(out, at, line.number);
    let kind_at = put(out, after_number, b" ");
    let after_kind = put(out, kind_at, kind_name(line.kind));
    let after_answer = put_behind_space(out, after_kind, u64::from(line.answer));
    let after_size = put_behind_space(out, after_answer, line.size as u64);
    put(out, after_size, b"\n")
}

// A number behind a space.
fn put_behind_space(out: &mut [u8], at: usize, number: u64) -> usize
    requires { at + 21 ≤ length out.old }
    ensures value { (result ≡ at + length (spec.space ++ spec.decimal number)) × (result ≤ at + 21) }
    ensures out_after { out.new ≡ paste out.old at (spec.space ++ spec.decimal number) (length (spec.space ++ spec.decimal number)) }
{
    let number_at = put(out, at, b" ");
    put_number(out, number_at, number)
}

fn put_number(out: &mut [u8], at: usize, number: u64) -> usize
    requires { at + 20 ≤ length out.old }
    ensures value { (result ≡ at + length (spec.decimal number)) × (result ≤ at + 20) }
    ensures out_after { out.new ≡ paste out.old at (spec.decimal number) (length (spec.decimal number)) }
{
    let mut digits = [0; 20];
    let count = io::decimal(number, &mut digits);
    put(out, at, &digits[..count])
}

fn kind_name(kind: Kind) -> &'static [u8]
    ensures value { result.now ≡ spec.kind_name kind }
    ensures short { length result.now ≤ 19 }
{
    match kind {
        Kind::Marker => b"marker",
        Kind::LinkUp => b"link-up",
        Kind::LinkDown => b"link-down",
        Kind::PairingMode => b"pairing-mode",
        Kind::AddressRotated => b"address-rotated",
        Kind::PowerOn => b"power-on",
        Kind::FactoryReset => b"factory-reset",
        Kind::KeyBasedWrite => b"key-based-write",
        Kind::PairingStarted => b"pairing-started",
        Kind::ConfirmationNeeded => b"confirmation-needed",
        Kind::PasskeyWrite => b"passkey-write",
        Kind::PairingEnded => b"pairing-ended",
        Kind::AccountKeyWrite => b"account-key-write",
        Kind::NameWrite => b"name-write",
    }
}

// `part` in `out` from `at` on; the place behind it is handed back.
fn put(out: &mut [u8], at: usize, part: &[u8]) -> usize
    requires { at + length part.now ≤ length out.old }
    ensures value { result ≡ at + length part.now }
    ensures out_after { out.new ≡ paste out.old at part.now (length part.now) }
{
    basics::copy(out, at, part);
    at + part.len()
}
