// Packets of names: the one that the Fast Pair specification publishes, names whose lengths lie around the ends of blocks, and
// packets with one bit changed. The key and the nonce are the specification's.
ghost use Rattle.std.specs.Prelude.{◌≡◌, leb, length, take, None, IfSome, if◌then◌else◌};
ghost use Rattle.names.specs.Name.{Valid, reading};

use crate::hex::line;
use names::Name;

const KEY: [u8; 16] = *b"\x01\x23\x45\x67\x89\xab\xcd\xef\x01\x23\x45\x67\x89\xab\xcd\xef";

const NONCE: [u8; 8] = *b"\x00\x01\x02\x03\x04\x05\x06\x07";

const PUBLISHED: &[u8] = b"Someone's Google Headphone";

pub fn run(rt: &HostRuntime) {
    sealed(rt, "Fast Pair packet", PUBLISHED, 26);
    let letters = b"abcdefghijklmnopqrstuvwxyzabcdefghijklmnopqrstuvwxyzabcdefghijkl";
    for (label, length) in [
        ("packet of 0 bytes", 0),
        ("packet of 1 byte", 1),
        ("packet of 15 bytes", 15),
        ("packet of 16 bytes", 16),
        ("packet of 17 bytes", 17),
        ("packet of 63 bytes", 63),
        ("packet of 64 bytes", 64),
    ] {
        sealed(rt, label, letters, length);
    }
    for (label, at) in [
        ("Fast Pair packet, first byte of the tag changed", 0),
        ("Fast Pair packet, last byte of the tag changed", 7),
        ("Fast Pair packet, nonce changed", 15),
        ("Fast Pair packet, last byte changed", 41),
    ] {
        changed(rt, label, at);
    }
}

// The name of the first n bytes of a text, if they are one.
fn named(text: &[u8], n: usize) -> Option<Name>
    ensures value { result ≡ (if leb n (length text.now) then reading (take n text.now) else None) }
    ensures valid { IfSome result Valid }
{
    if n <= text.len() {
        names::read(&text[..n])
    } else {
        None
    }
}

// Two lines: an output of 80 bytes, which held EE before, and the bytes of the name that its packet reads as.
fn sealed(rt: &HostRuntime, label: &str, text: &[u8], n: usize) {
    let Some(name) = named(text, n) else {
        return;
    };
    let mut out = [0xEE; 80];
    additional_data::seal(KEY, NONCE, name, &mut out);
    line(rt, label, &out);
    let packet = &out[..16 + name.length as usize];
    if let Some(again) = additional_data::open(KEY, packet) {
        line(rt, "name read from it", &again.bytes);
    }
}

// One line: whether the published packet is still read with one bit of a byte changed.
fn changed(rt: &HostRuntime, label: &str, at: usize) {
    let Some(name) = named(PUBLISHED, 26) else {
        return;
    };
    let mut out = [0; 80];
    additional_data::seal(KEY, NONCE, name, &mut out);
    let packet = with_bit_changed(out, at);
    let is_read = additional_data::open(KEY, &packet[..42]).is_some();
    line(rt, label, &[u8::from(is_read)]);
}

fn with_bit_changed(mut packet: [u8; 80], at: usize) -> [u8; 80] {
    if let Some(byte) = packet.get_mut(at) {
        *byte ^= 1;
    }
    packet
}
