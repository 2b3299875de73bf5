// Power-on, the marker, links, pairing mode, rotation and reset, for C.
#![tactic(auto, unfolding(crate::specs::Calls::served, crate::specs::Calls::lent_back))]

ghost use Rattle.std.specs.Prelude.{◌≡◌, eqb, not};
ghost use Rattle.capi.specs.Calls.{served};
ghost use Rattle.packed.specs.Packed.{packed};
ghost use Rattle.provider.specs.Rules.Control.{off};
ghost use Rattle.provider.specs.Rules.Event.{Overflow, PowerOn, OnDevice, OnLink, PairingMode, AddressRotated, FactoryReset, LinkUp, LinkDown};

use basics::{Address, Link, Moment};
use packed::{FpDevice, FpOutcome, pack, unpack};
use provider::{Device, Start};

// The value before any device was made.
#[unsafe(no_mangle)]
pub extern "C" fn fp_off() -> FpDevice
    ensures { result ≡ packed off }
{
    pack::pack(Device::off())
}

#[unsafe(no_mangle)]
pub extern "C" fn fp_power_on(
    device: FpDevice,
    stored: &[u8],
    name: &[u8],
    start: Start,
) -> FpOutcome
    ensures { result ≡ served device (PowerOn stored.now name.now start) }
{
    let Some(d) = unpack::unpack(device) else {
        return crate::returned(device);
    };
    pack::pack_outcome(d.power_on(stored, name, start))
}

#[unsafe(no_mangle)]
pub extern "C" fn fp_overflow(device: FpDevice) -> FpOutcome
    ensures { result ≡ served device Overflow }
{
    let Some(d) = unpack::unpack(device) else {
        return crate::returned(device);
    };
    pack::pack_outcome(d.overflow())
}

#[unsafe(no_mangle)]
pub extern "C" fn fp_link_up(device: FpDevice, link: u8, clock: u64) -> FpOutcome
    ensures { result ≡ served device (OnLink link clock LinkUp) }
{
    let Some(d) = unpack::unpack(device) else {
        return crate::returned(device);
    };
    pack::pack_outcome(d.link_up(Link(link), Moment(clock)))
}

#[unsafe(no_mangle)]
pub extern "C" fn fp_link_down(device: FpDevice, link: u8, clock: u64) -> FpOutcome
    ensures { result ≡ served device (OnLink link clock LinkDown) }
{
    let Some(d) = unpack::unpack(device) else {
        return crate::returned(device);
    };
    pack::pack_outcome(d.link_down(Link(link), Moment(clock)))
}

// `on` is 0 for off, and any other number for on.
#[unsafe(no_mangle)]
pub extern "C" fn fp_pairing_mode(device: FpDevice, on: u8, clock: u64) -> FpOutcome
    ensures { result ≡ served device (OnDevice clock (PairingMode (not (eqb on 0)))) }
{
    let Some(d) = unpack::unpack(device) else {
        return crate::returned(device);
    };
    pack::pack_outcome(d.pairing_mode(on != 0, Moment(clock)))
}

#[unsafe(no_mangle)]
pub extern "C" fn fp_address_rotated(
    device: FpDevice,
    ble: Address,
    salt: &[u8; 2],
    clock: u64,
) -> FpOutcome
    ensures { result ≡ served device (OnDevice clock (AddressRotated ble salt.now)) }
{
    let Some(d) = unpack::unpack(device) else {
        return crate::returned(device);
    };
    pack::pack_outcome(d.address_rotated(ble, *salt, Moment(clock)))
}

#[unsafe(no_mangle)]
pub extern "C" fn fp_factory_reset(device: FpDevice, clock: u64) -> FpOutcome
    ensures { result ≡ served device (OnDevice clock FactoryReset) }
{
    let Some(d) = unpack::unpack(device) else {
        return crate::returned(device);
    };
    pack::pack_outcome(d.factory_reset(Moment(clock)))
}
