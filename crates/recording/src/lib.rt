// Document 02, request (iii): the records of the event queue: their layout, what every writer goes by, and the reader. docs/RECORDING.md is the layout.
#![tactic(auto)]

pub mod frame;
pub mod reader;

ghost use Rattle.std.specs.Prelude.{◌≡◌};
ghost use Rattle.recording.specs.Layout as layout;
ghost use Rattle.recording.specs.Reading as reading;

// Most bytes of a record after its length field.
pub const BODY_MAX: usize = 1024;

// The version of records.
const VERSION: u8 = 0x01;

// The kinds of event, in the order of document 01; the name write of document 02 is last.
#[derive(Clone, Copy, PartialEq, Eq)]
pub enum Kind {
    Marker,
    LinkUp,
    LinkDown,
    PairingMode,
    AddressRotated,
    PowerOn,
    FactoryReset,
    KeyBasedWrite,
    PairingStarted,
    ConfirmationNeeded,
    PasskeyWrite,
    PairingEnded,
    AccountKeyWrite,
    NameWrite,
}

impl Kind {
    // The kind byte of a record.
    pub fn byte(self) -> u8
        ensures { result ≡ layout.kind_byte self }
    {
        match self {
            Kind::Marker => 0x01,
            Kind::LinkUp => 0x02,
            Kind::LinkDown => 0x03,
            Kind::PairingMode => 0x04,
            Kind::AddressRotated => 0x05,
            Kind::PowerOn => 0x06,
            Kind::FactoryReset => 0x07,
            Kind::KeyBasedWrite => 0x08,
            Kind::PairingStarted => 0x09,
            Kind::ConfirmationNeeded => 0x0A,
            Kind::PasskeyWrite => 0x0B,
            Kind::PairingEnded => 0x0C,
            Kind::AccountKeyWrite => 0x0D,
            Kind::NameWrite => 0x0E,
        }
    }
}

// A byte that is no kind's.
#[derive(Clone, Copy, PartialEq, Eq)]
pub struct UnknownKind(pub u8);

// The kind of a kind byte.
impl TryFrom<u8> for Kind {
    type Error = UnknownKind;

    ghost try_from_gives = { reading.DecodesKind };

    fn try_from(byte: u8) -> Result<Kind, UnknownKind> {
        match byte {
            0x01 => Ok(Kind::Marker),
            0x02 => Ok(Kind::LinkUp),
            0x03 => Ok(Kind::LinkDown),
            0x04 => Ok(Kind::PairingMode),
            0x05 => Ok(Kind::AddressRotated),
            0x06 => Ok(Kind::PowerOn),
            0x07 => Ok(Kind::FactoryReset),
            0x08 => Ok(Kind::KeyBasedWrite),
            0x09 => Ok(Kind::PairingStarted),
            0x0A => Ok(Kind::ConfirmationNeeded),
            0x0B => Ok(Kind::PasskeyWrite),
            0x0C => Ok(Kind::PairingEnded),
            0x0D => Ok(Kind::AccountKeyWrite),
            0x0E => Ok(Kind::NameWrite),
            _ => Err(UnknownKind(byte)),
        }
    }
}

// The kind that a record is read as, given without its length field: one of another version, size or kind is a marker.
pub fn read_kind(record: &[u8]) -> Kind
    ensures { result ≡ reading.kind_read «record».now }
{
    match record {
        [VERSION, kind, ..] if record.len() <= BODY_MAX => Kind::try_from(*kind).unwrap_or(
            Kind::Marker,
        ),
        _ => Kind::Marker,
    }
}
