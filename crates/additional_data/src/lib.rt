// Additional data, source document 004: the packet that carries a personalized name, sealed with the session key.
#![tactic(auto)]

ghost use Rattle.std.specs.Prelude.{◌++◌, ◌≡◌, ◌+◌, ◌≤◌, length, take, drop};
ghost use Rattle.std.proofs.Math.Seq.{paste};
ghost use Rattle.laws.specs.Choice.{◌and◌};
ghost use Rattle.names.specs.Name.{Valid, text_of, reading};
ghost use Rattle.additional_data.specs.CounterMode.{key_stream, counter_mode};
ghost use Rattle.additional_data.specs.Packet as spec;

use names::{NAME_MAX, Name};

// The most bytes of a packet.
pub const PACKET_MAX: usize = 80;

// Whether a packet has 16 to 80 bytes.
pub fn is_sized(packet: &[u8]) -> bool
    ensures { result ≡ spec.packet_sized packet.now }
{
    (16..=PACKET_MAX).contains(&packet.len())
}

// How many bytes the packet of `name` has.
pub fn packet_size(name: Name) -> u8
    requires { Valid name }
    ensures { result ≡ spec.packet_size name }
{
    16 + (name.length as u8)
}

// The packet of a name, built in `out`. Bytes past it stay.
pub fn seal(key: [u8; 16], nonce: [u8; 8], name: Name, out: &mut [u8])
    requires { Valid name × (80 ≤ length out.old) }
    ensures { out.new ≡ spec.sealed key nonce (text_of name) ++ drop (spec.packet_size name) out.old }
{
    let n = name.length as usize;
    let e = 16 + n;
    basics::copy(out, 8, &nonce);
    basics::copy(out, 16, &name.bytes[..n]);
    counter_mode(key, nonce, &mut out[16..e]);
    let t = tag(key, &out[8..e]);
    basics::copy(out, 0, &t);
}

// The name that a packet carries: none if its size or its tag is wrong, or if what it carries is no name.
#[tactic(auto, unfolding(crate::specs::Packet::opened))]
pub fn open(key: [u8; 16], packet: &[u8]) -> Option<Name>
    ensures { result ≡ spec.opened key packet.now }
{
    if !is_intact(key, packet) {
        return None;
    }
    name_in(key, packet)
}

// Whether a packet has the size and the tag of one. All bytes of the tag are compared, whatever the first ones are.
fn is_intact(key: [u8; 16], packet: &[u8]) -> bool
    ensures { result ≡ (spec.packet_sized packet.now and spec.tag_fits key packet.now) }
{
    is_sized(packet) && basics::same(&packet[..8], &tag(key, &packet[8..]))
}

// The name in a packet of the right size, whose tag is not looked at.
fn name_in(key: [u8; 16], packet: &[u8]) -> Option<Name>
    requires { (16 ≤ length packet.now) × (length packet.now ≤ 80) }
    ensures { result ≡ reading (counter_mode key (spec.nonce_in packet.now) (drop 16 packet.now)) }
{
    let n = packet.len() - 16;
    let nonce = basics::part(packet, 8);
    let mut text = [0u8; NAME_MAX];
    basics::copy(&mut text, 0, &packet[16..]);
    counter_mode(key, nonce, &mut text[..n]);
    names::read(&text[..n])
}

// The data under the counter mode, in place. It undoes itself.
fn counter_mode(key: [u8; 16], nonce: [u8; 8], data: &mut [u8])
    ensures { «data».new ≡ counter_mode key nonce «data».old }
{
    let mut stream = [0u8; 16];
    for (j, byte) in data.iter_mut().enumerate() {
        if j % 16 == 0 {
            stream = key_stream(key, nonce, j / 16);
        }
        *byte ^= stream[j % 16];
    }
}

// What block i of the data is added to.
fn key_stream(key: [u8; 16], nonce: [u8; 8], i: usize) -> [u8; 16]
    ensures { result ≡ key_stream key nonce i }
{
    let mut block = [0u8; 16];
    block[0] = (i % 256) as u8;
    block[8..].copy_from_slice(&nonce);
    aes128::encrypt(key, block)
}

// The tag of a message: the nonce and the data of a packet.
fn tag(key: [u8; 16], message: &[u8]) -> [u8; 8]
    ensures { result ≡ spec.tag key message.now }
{
    let mut long = [0u8; 64];
    long[..16].copy_from_slice(&key);
    basics::part(&hmac_sha256::mac(long, message), 0)
}
