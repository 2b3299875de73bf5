// Personalized names: document 02 (i), 0 to 64 bytes of UTF-8 as RFC 3629 has it.
#![tactic(auto)]

pub mod utf8;

ghost use Rattle.std.specs.Prelude.{◌≡◌, ◌≤◌, length};
ghost use Rattle.names.specs.Name as spec;

// The most bytes of a name.
pub const NAME_MAX: usize = 64;

// A name: its first `length` bytes; the others are zero.
#[repr(C)]
#[derive(Clone, Copy)]
pub struct Name {
    pub length: u64,
    pub bytes: [u8; NAME_MAX],
}

impl Name {
    // The empty name.
    pub fn none() -> Name
        ensures { result ≡ spec.no_name }
    {
        Name {
            length: 0,
            bytes: [0u8; NAME_MAX],
        }
    }

    // A name whose fields may hold anything, read again.
    pub fn read_again(self) -> Option<Name>
        ensures { result ≡ spec.read_again self }
    {
        if self.length > NAME_MAX as u64 {
            return None;
        }
        read(&self.bytes[..self.length as usize])
    }
}

// Any bytes, read as a name.
#[tactic(auto, unfolding(crate::specs::Name::is_name))]
pub fn read(text: &[u8]) -> Option<Name>
    ensures { result ≡ spec.reading text.now }
{
    if NAME_MAX < text.len() || !utf8::is_utf8(text) {
        return None;
    }
    Some(name_of(text))
}

// The name that holds `text`.
fn name_of(text: &[u8]) -> Name
    requires { length text.now ≤ 64 }
    ensures { result ≡ spec.name_of text.now }
{
    let mut bytes = [0u8; NAME_MAX];
    basics::copy(&mut bytes, 0, text);
    Name {
        length: text.len() as u64,
        bytes,
    }
}
