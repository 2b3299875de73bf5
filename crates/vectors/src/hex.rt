// A line of output: a name, a space and bytes in hex.
use std::fmt;
use std::fmt::Display;

// Bytes, printed as two hex digits each.
#[derive(Clone, Copy)]
struct Hex<'a> {
    bytes: &'a [u8],
}

impl Display for Hex<'_> {
    fn fmt<W: fmt::Write>(&self, f: &mut fmt::Formatter<W>) -> fmt::Result {
        for byte in self.bytes {
            write!(f, "{byte:02x}")?;
        }
        Ok(())
    }
}

// If the line can't be written, nothing is left to tell it by.
pub fn line(rt: &HostRuntime, name: &str, bytes: &[u8]) {
    let _ = println!(rt; "{name} {}", Hex { bytes });
}
