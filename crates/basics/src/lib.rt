// What every layer of the provider speaks of: answers, link numbers and moments, addresses, parts of byte strings.
#![tactic(auto)]

ghost use Rattle.std.specs.Prelude.{◌≡◌, ◌+◌, ◌-◌, ◌≤◌, length};
ghost use Rattle.std.proofs.Math.Seq.{paste};
ghost use Rattle.basics.specs.Answers.{answer_number, is_taken};
ghost use Rattle.basics.specs.Bytes as spec;

// The number of a link, of which 0 to 7 exist.
#[derive(Clone, Copy)]
pub struct Link(pub u8);

// A moment of the device's clock, in milliseconds.
#[repr(C)]
#[derive(Clone, Copy)]
pub struct Moment(pub u64);

// A Bluetooth address, in the order in which a request names it.
#[repr(C)]
#[derive(Clone, Copy)]
pub struct Address {
    pub bytes: [u8; 6],
}

// The answers of documents 01 and 02, one for each row of the table; `answer_number` of specs/Answers gives the number.
#[derive(Clone, Copy, PartialEq, Eq)]
pub enum Answer {
    Taken,
    UnknownLink,
    WrongLength,
    PasskeyTooLarge,
    ClockWentBack,
    LockedOut,
    NotInPairingMode,
    NoKeyFits,
    SaltSpent,
    LinkIdle,
    WrongStage,
    CapabilityRefused,
    BadBlock,
    OutputTooShort,
    ListMalformed,
    NameRefused,
    RotationAwaited,
}

impl Answer {
    // The documents' number of an answer.
    pub fn number(self) -> u8
        ensures { result ≡ answer_number self }
    {
        match self {
            Answer::Taken => 0,
            Answer::UnknownLink => 1,
            Answer::WrongLength => 2,
            Answer::PasskeyTooLarge => 3,
            Answer::ClockWentBack => 4,
            Answer::LockedOut => 5,
            Answer::NotInPairingMode => 6,
            Answer::NoKeyFits => 7,
            Answer::SaltSpent => 8,
            Answer::LinkIdle => 9,
            Answer::WrongStage => 10,
            Answer::CapabilityRefused => 11,
            Answer::BadBlock => 12,
            Answer::OutputTooShort => 13,
            Answer::ListMalformed => 14,
            Answer::NameRefused => 15,
            Answer::RotationAwaited => 16,
        }
    }

    // Answer 0; every other one is a refusal.
    pub fn is_taken(self) -> bool
        ensures { result ≡ is_taken self }
    {
        self == Answer::Taken
    }
}

// Whether two byte strings are equal: addresses, salts and keys are compared here. Every byte is looked at, whatever the first
// ones are: a loop left at the first difference would tell by its time how much of a key was guessed.
pub fn same(a: &[u8], b: &[u8]) -> bool
    ensures { result ≡ spec.same a.now b.now }
{
    if a.len() != b.len() {
        return false;
    }
    let mut equal = true;
    for (x, y) in a.iter().zip(b) {
        equal &= x == y;
    }
    equal
}

// The `N` bytes of `src` from `at` on.
pub fn part<const N: usize>(src: &[u8], at: usize) -> [u8; N]
    requires { at + N ≤ length src.now }
    ensures { result ≡ spec.part N at src.now }
{
    let mut bytes = [0u8; N];
    bytes.copy_from_slice(&src[at..at + N]);
    bytes
}

// `part` copied into `out` from `at` on.
pub fn copy(out: &mut [u8], at: usize, part: &[u8])
    requires { at + length part.now ≤ length out.old }
    ensures { out.new ≡ paste out.old at part.now (length part.now) }
{
    out[at..at + part.len()].copy_from_slice(part);
}

// How long ago `then` was, in milliseconds; 0 if it is still to come.
pub fn ago(now: Moment, then: Moment) -> u64
    ensures { result ≡ now.0 - then.0 }
{
    now.0.saturating_sub(then.0)
}
