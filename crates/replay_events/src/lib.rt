// One event of a recording on a device: the record's sizes and values are looked at first, and what is no event is a marker.
#![tactic(auto)]

mod fields;

ghost use Rattle.std.specs.Prelude.{MatchOption, true, false, ◌≡◌};
ghost use Rattle.provider.specs.Demands.Validity.{Valid};
ghost use Rattle.provider.specs.Rules.Event.{Overflow};
ghost use Rattle.recording.specs.Reading as reading;
ghost use Rattle.recording.specs.Reading.{event_in, read_as, read_power_on, read_key_based_write, read_passkey_write};
ghost use Rattle.recording.specs.declared.Kind.TheVariants as kinds;
ghost use Rattle.replay_events.specs.Played.{played, outcome_of};

use basics::{Address, part};
use provider::{Device, Identity, Outcome, Start};
use recording::Kind;

// An event's kind and outcome.
#[derive(Clone, Copy)]
pub struct Played {
    pub kind: Kind,
    pub outcome: Outcome,
}

// Most bytes that an event asks of its lent outputs: whatever is longer gets the same answer.
const RESPONSE: usize = 16;

const PACKET: usize = 80;

pub fn play(device: Device, record: &[u8]) -> Played
    requires { Valid device }
    ensures { result ≡ played device (event_in «record».now) }
{
    let kind = recording::read_kind(record);
    match outcome(&device, kind, record) {
        Some(outcome) => Played { kind, outcome },
        None => marker(device),
    }
}

pub fn marker(device: Device) -> Played
    requires { Valid device }
    ensures { result ≡ played device Overflow }
{
    Played {
        kind: Kind::Marker,
        outcome: device.overflow(),
    }
}

// The outcome of a record of this kind; None if it has fields of the wrong size, or a value that no event has.
fn outcome(device: &Device, kind: Kind, record: &[u8]) -> Option<Outcome>
    requires { Valid device.now }
    ensures { result ≡ outcome_of device.now (read_as kind «record».now) }
{
    match kind {
        Kind::Marker => None,
        Kind::LinkUp => link_up(device, record),
        Kind::LinkDown => link_down(device, record),
        Kind::PairingMode => pairing_mode(device, record),
        Kind::AddressRotated => address_rotated(device, record),
        Kind::PowerOn => power_on(device, record),
        Kind::FactoryReset => factory_reset(device, record),
        Kind::KeyBasedWrite => key_based_write(device, record),
        Kind::PairingStarted => pairing_started(device, record),
        Kind::ConfirmationNeeded => confirmation_needed(device, record),
        Kind::PasskeyWrite => passkey_write(device, record),
        Kind::PairingEnded => pairing_ended(device, record),
        Kind::AccountKeyWrite => account_key_write(device, record),
        Kind::NameWrite => name_write(device, record),
    }
}

fn link_up(device: &Device, record: &[u8]) -> Option<Outcome>
    requires { Valid device.now }
    ensures { result ≡ outcome_of device.now (read_as kinds.LinkUp «record».now) }
{
    let (link, clock, fields) = fields::on_link(record)?;
    let [] = fields else {
        return None;
    };
    Some(device.link_up(link, clock))
}

fn link_down(device: &Device, record: &[u8]) -> Option<Outcome>
    requires { Valid device.now }
    ensures { result ≡ outcome_of device.now (read_as kinds.LinkDown «record».now) }
{
    let (link, clock, fields) = fields::on_link(record)?;
    let [] = fields else {
        return None;
    };
    Some(device.link_down(link, clock))
}

fn pairing_mode(device: &Device, record: &[u8]) -> Option<Outcome>
    requires { Valid device.now }
    ensures { result ≡ outcome_of device.now (read_as kinds.PairingMode «record».now) }
{
    let (clock, fields) = fields::on_device(record)?;
    let on = fields::flag(fields::only(fields)?)?;
    Some(device.pairing_mode(on, clock))
}

fn address_rotated(device: &Device, record: &[u8]) -> Option<Outcome>
    requires { Valid device.now }
    ensures { result ≡ outcome_of device.now (read_as kinds.AddressRotated «record».now) }
{
    let (clock, fields) = fields::on_device(record)?;
    if fields.len() != 8 {
        return None;
    }
    let ble = Address {
        bytes: part(fields, 0),
    };
    Some(device.address_rotated(ble, part(fields, 6), clock))
}

fn factory_reset(device: &Device, record: &[u8]) -> Option<Outcome>
    requires { Valid device.now }
    ensures { result ≡ outcome_of device.now (read_as kinds.FactoryReset «record».now) }
{
    let (clock, fields) = fields::on_device(record)?;
    let [] = fields else {
        return None;
    };
    Some(device.factory_reset(clock))
}

fn pairing_started(device: &Device, record: &[u8]) -> Option<Outcome>
    requires { Valid device.now }
    ensures { result ≡ outcome_of device.now (read_as kinds.PairingStarted «record».now) }
{
    let (link, clock, fields) = fields::on_link(record)?;
    Some(device.pairing_started(link, clock, fields::only(fields)?))
}

fn confirmation_needed(device: &Device, record: &[u8]) -> Option<Outcome>
    requires { Valid device.now }
    ensures { result ≡ outcome_of device.now (read_as kinds.ConfirmationNeeded «record».now) }
{
    let (link, clock, fields) = fields::on_link(record)?;
    if fields.len() != 4 {
        return None;
    }
    let passkey = u32::from_be_bytes(part(fields, 0));
    Some(device.confirmation_needed(link, clock, passkey))
}

fn pairing_ended(device: &Device, record: &[u8]) -> Option<Outcome>
    requires { Valid device.now }
    ensures { result ≡ outcome_of device.now (read_as kinds.PairingEnded «record».now) }
{
    let (link, clock, fields) = fields::on_link(record)?;
    let success = fields::flag(fields::only(fields)?)?;
    Some(device.pairing_ended(link, clock, success))
}

fn account_key_write(device: &Device, record: &[u8]) -> Option<Outcome>
    requires { Valid device.now }
    ensures { result ≡ outcome_of device.now (read_as kinds.AccountKeyWrite «record».now) }
{
    let (link, clock, block) = fields::on_link(record)?;
    Some(device.account_key_write(link, clock, block))
}

fn name_write(device: &Device, record: &[u8]) -> Option<Outcome>
    requires { Valid device.now }
    ensures { result ≡ outcome_of device.now (read_as kinds.NameWrite «record».now) }
{
    let (link, clock, packet) = fields::on_link(record)?;
    Some(device.name_write(link, clock, packet))
}

fn power_on(device: &Device, record: &[u8]) -> Option<Outcome>
    requires { Valid device.now }
    ensures { result ≡ outcome_of device.now (read_power_on «record».now) }
{
    let [_, _, high, low, fields @ ..] = record else {
        return None;
    };
    let length = u16::from_be_bytes([*high, *low]);
    let (stored, fields) = fields.split_at_checked(usize::from(length))?;
    let (start, name) = fields.split_first_chunk()?;
    Some(device.power_on(stored, name, read_start(start)))
}

fn passkey_write(device: &Device, record: &[u8]) -> Option<Outcome>
    requires { Valid device.now }
    ensures { result ≡ outcome_of device.now (read_passkey_write «record».now) }
{
    let (link, clock, fields) = fields::on_link(record)?;
    let (block, tail) = fields.split_last_chunk::<20>()?;
    let mut out = [0u8; RESPONSE];
    let lent = fields::lent(u64::from_be_bytes(part(tail, 12)), RESPONSE);
    Some(device.passkey_write(link, clock, block, part(tail, 0), &mut out[..lent]))
}

fn key_based_write(device: &Device, record: &[u8]) -> Option<Outcome>
    requires { Valid device.now }
    ensures { result ≡ outcome_of device.now (read_key_based_write «record».now) }
{
    let (link, clock, fields) = fields::on_link(record)?;
    let (request, tail) = fields.split_last_chunk::<66>()?;
    let element = read_element(fields::flag(tail[0])?, part(tail, 1))?;
    let mut out = [0u8; RESPONSE];
    let mut packet = [0u8; PACKET];
    let out_length = fields::lent(u64::from_be_bytes(part(tail, 50)), RESPONSE);
    let packet_length = fields::lent(u64::from_be_bytes(part(tail, 58)), PACKET);
    Some(device.key_based_write(
        link,
        clock,
        request,
        element,
        part(tail, 33),
        part(tail, 42),
        &mut out[..out_length],
        &mut packet[..packet_length],
    ))
}

// The element's result, of a flag and a secret. Zeros stand for the secret of a rejected point; other bytes there are no event's.
fn read_element(accepted: bool, secret: [u8; 32]) -> Option<Option<[u8; 32]>>
    ensures { MatchOption result
        (reading.is_element accepted secret ≡ false)
        (λ e. (reading.is_element accepted secret ≡ true) × (e ≡ reading.secret_if accepted secret)) }
{
    if accepted || basics::same(&secret, &[0u8; 32]) {
        Some(accepted.then_some(secret))
    } else {
        None
    }
}

// Addresses, model ID and salt.
fn read_start(bytes: &[u8; 17]) -> Start
    ensures { result ≡ reading.start_at 0 bytes.now }
{
    Start {
        identity: Identity {
            public: Address {
                bytes: part(bytes, 6),
            },
            model: part(bytes, 12),
        },
        ble: Address {
            bytes: part(bytes, 0),
        },
        salt: part(bytes, 15),
    }
}
