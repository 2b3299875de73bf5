// The records of events that are on no link.
ghost use Rattle.std.specs.Prelude.{◌≡◌};
ghost use Rattle.provider.specs.Rules.Event.{Overflow, PowerOn, OnDevice, PairingMode, AddressRotated, FactoryReset};
ghost use Rattle.recording.specs.Writing.{record_report, record_placed};

use basics::{Address, Answer, Moment};
use provider::Start;
use recording::{Kind, frame};

pub fn overflow(out: &mut [u8]) -> Result<usize, Answer>
    ensures value { result ≡ record_report Overflow out.old }
    ensures out_after { out.new ≡ record_placed Overflow out.old }
{
    frame::write(Kind::Marker, &[], out)
}

pub fn power_on(stored: &[u8], name: &[u8], start: Start, out: &mut [u8]) -> Result<usize, Answer>
    ensures value { result ≡ record_report (PowerOn stored.now name.now start) out.old }
    ensures out_after { out.new ≡ record_placed (PowerOn stored.now name.now start) out.old }
{
    frame::write(
        Kind::PowerOn,
        &[
            &frame::length_field(stored.len()),
            stored,
            &start.ble.bytes,
            &start.identity.public.bytes,
            &start.identity.model,
            &start.salt,
            name,
        ],
        out,
    )
}

pub fn pairing_mode(on: bool, clock: Moment, out: &mut [u8]) -> Result<usize, Answer>
    ensures value { result ≡ record_report (OnDevice clock.0 (PairingMode on)) out.old }
    ensures out_after { out.new ≡ record_placed (OnDevice clock.0 (PairingMode on)) out.old }
{
    frame::write(
        Kind::PairingMode,
        &[&clock.0.to_be_bytes(), &[u8::from(on)]],
        out,
    )
}

pub fn address_rotated(
    ble: Address,
    salt: [u8; 2],
    clock: Moment,
    out: &mut [u8],
) -> Result<usize, Answer>
    ensures value { result ≡ record_report (OnDevice clock.0 (AddressRotated ble salt)) out.old }
    ensures out_after { out.new ≡ record_placed (OnDevice clock.0 (AddressRotated ble salt)) out.old }
{
    frame::write(
        Kind::AddressRotated,
        &[&clock.0.to_be_bytes(), &ble.bytes, &salt],
        out,
    )
}

pub fn factory_reset(clock: Moment, out: &mut [u8]) -> Result<usize, Answer>
    ensures value { result ≡ record_report (OnDevice clock.0 FactoryReset) out.old }
    ensures out_after { out.new ≡ record_placed (OnDevice clock.0 FactoryReset) out.old }
{
    frame::write(Kind::FactoryReset, &[&clock.0.to_be_bytes()], out)
}
