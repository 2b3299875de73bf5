// What C firmware links to record: one exported function for each kind of event. include/fastpair.h is their page for C.
#![tactic(auto, unfolding(recording::specs::Layout::body))]

mod device_records;
mod link_records;

ghost use Rattle.std.specs.Prelude.{not, ◌≡◌, eqb};
ghost use Rattle.packed.specs.Packed.{packed_report, element_of};
ghost use Rattle.pairing.specs.Pairing.{PairingStarted, ConfirmationNeeded, PasskeyWrite, PairingEnded, AccountKeyWrite, NameWrite};
ghost use Rattle.provider.specs.Rules.Event.{Overflow, PowerOn, OnDevice, OnLink, PairingMode, AddressRotated, FactoryReset, LinkUp, LinkDown, KeyBasedWrite, OnSession};
ghost use Rattle.recording.specs.Reading.{zeros};
ghost use Rattle.recording.specs.Writing.{record_report, record_placed};

use basics::{Address, Link, Moment};
use packed::{FpElement, FpReport, pack, unpack};
use provider::Start;

#[unsafe(no_mangle)]
pub extern "C" fn fp_record_overflow(out: &mut [u8]) -> FpReport
    ensures value { result ≡ packed_report (record_report (Overflow) out.old) }
    ensures out_after { out.new ≡ record_placed (Overflow) out.old }
{
    pack::pack_report(device_records::overflow(out))
}

#[unsafe(no_mangle)]
pub extern "C" fn fp_record_power_on(
    stored: &[u8],
    name: &[u8],
    start: Start,
    out: &mut [u8],
) -> FpReport
    ensures value { result ≡ packed_report (record_report (PowerOn stored.now name.now start) out.old) }
    ensures out_after { out.new ≡ record_placed (PowerOn stored.now name.now start) out.old }
{
    pack::pack_report(device_records::power_on(stored, name, start, out))
}

#[unsafe(no_mangle)]
pub extern "C" fn fp_record_link_up(link: u8, clock: u64, out: &mut [u8]) -> FpReport
    ensures value { result ≡ packed_report (record_report (OnLink link clock LinkUp) out.old) }
    ensures out_after { out.new ≡ record_placed (OnLink link clock LinkUp) out.old }
{
    pack::pack_report(link_records::link_up(Link(link), Moment(clock), out))
}

#[unsafe(no_mangle)]
pub extern "C" fn fp_record_link_down(link: u8, clock: u64, out: &mut [u8]) -> FpReport
    ensures value { result ≡ packed_report (record_report (OnLink link clock LinkDown) out.old) }
    ensures out_after { out.new ≡ record_placed (OnLink link clock LinkDown) out.old }
{
    pack::pack_report(link_records::link_down(Link(link), Moment(clock), out))
}

// `on` is 0 for off, and any other number for on.
#[unsafe(no_mangle)]
pub extern "C" fn fp_record_pairing_mode(on: u8, clock: u64, out: &mut [u8]) -> FpReport
    ensures value { result ≡ packed_report (record_report (OnDevice clock (PairingMode (not (eqb on 0)))) out.old) }
    ensures out_after { out.new ≡ record_placed (OnDevice clock (PairingMode (not (eqb on 0)))) out.old }
{
    pack::pack_report(device_records::pairing_mode(on != 0, Moment(clock), out))
}

#[unsafe(no_mangle)]
pub extern "C" fn fp_record_address_rotated(
    ble: Address,
    salt: &[u8; 2],
    clock: u64,
    out: &mut [u8],
) -> FpReport
    ensures value { result ≡ packed_report (record_report (OnDevice clock (AddressRotated ble salt.now)) out.old) }
    ensures out_after { out.new ≡ record_placed (OnDevice clock (AddressRotated ble salt.now)) out.old }
{
    pack::pack_report(device_records::address_rotated(ble, *salt, Moment(clock), out))
}

#[unsafe(no_mangle)]
pub extern "C" fn fp_record_factory_reset(clock: u64, out: &mut [u8]) -> FpReport
    ensures value { result ≡ packed_report (record_report (OnDevice clock FactoryReset) out.old) }
    ensures out_after { out.new ≡ record_placed (OnDevice clock FactoryReset) out.old }
{
    pack::pack_report(device_records::factory_reset(Moment(clock), out))
}

#[unsafe(no_mangle)]
pub extern "C" fn fp_record_pairing_started(
    link: u8,
    clock: u64,
    capability: u8,
    out: &mut [u8],
) -> FpReport
    ensures value { result ≡ packed_report (record_report (OnLink link clock (OnSession (PairingStarted capability))) out.old) }
    ensures out_after { out.new ≡ record_placed (OnLink link clock (OnSession (PairingStarted capability))) out.old }
{
    pack::pack_report(link_records::pairing_started(Link(link), Moment(clock), capability, out))
}

#[unsafe(no_mangle)]
pub extern "C" fn fp_record_confirmation_needed(
    link: u8,
    clock: u64,
    passkey: u32,
    out: &mut [u8],
) -> FpReport
    ensures value { result ≡ packed_report (record_report (OnLink link clock (OnSession (ConfirmationNeeded passkey))) out.old) }
    ensures out_after { out.new ≡ record_placed (OnLink link clock (OnSession (ConfirmationNeeded passkey))) out.old }
{
    pack::pack_report(link_records::confirmation_needed(Link(link), Moment(clock), passkey, out))
}

// `lent` is the length of the output that the event is lent.
#[unsafe(no_mangle)]
pub extern "C" fn fp_record_passkey_write(
    link: u8,
    clock: u64,
    block: &[u8],
    salt: &[u8; 12],
    lent: usize,
    out: &mut [u8],
) -> FpReport
    ensures value { result ≡ packed_report (record_report (OnLink link clock (OnSession (PasskeyWrite block.now salt.now (zeros lent)))) out.old) }
    ensures out_after { out.new ≡ record_placed (OnLink link clock (OnSession (PasskeyWrite block.now salt.now (zeros lent)))) out.old }
{
    pack::pack_report(link_records::passkey_write(
        Link(link),
        Moment(clock),
        block,
        *salt,
        lent,
        out,
    ))
}

// `success` is 0 for a pairing that failed, and any other number for one that succeeded.
#[unsafe(no_mangle)]
pub extern "C" fn fp_record_pairing_ended(
    link: u8,
    clock: u64,
    success: u8,
    out: &mut [u8],
) -> FpReport
    ensures value { result ≡ packed_report (record_report (OnLink link clock (OnSession (PairingEnded (not (eqb success 0))))) out.old) }
    ensures out_after { out.new ≡ record_placed (OnLink link clock (OnSession (PairingEnded (not (eqb success 0))))) out.old }
{
    pack::pack_report(link_records::pairing_ended(Link(link), Moment(clock), success != 0, out))
}

#[unsafe(no_mangle)]
pub extern "C" fn fp_record_account_key_write(
    link: u8,
    clock: u64,
    block: &[u8],
    out: &mut [u8],
) -> FpReport
    ensures value { result ≡ packed_report (record_report (OnLink link clock (OnSession (AccountKeyWrite block.now))) out.old) }
    ensures out_after { out.new ≡ record_placed (OnLink link clock (OnSession (AccountKeyWrite block.now))) out.old }
{
    pack::pack_report(link_records::account_key_write(Link(link), Moment(clock), block, out))
}

#[unsafe(no_mangle)]
pub extern "C" fn fp_record_name_write(
    link: u8,
    clock: u64,
    packet: &[u8],
    out: &mut [u8],
) -> FpReport
    ensures value { result ≡ packed_report (record_report (OnLink link clock (OnSession (NameWrite packet.now))) out.old) }
    ensures out_after { out.new ≡ record_placed (OnLink link clock (OnSession (NameWrite packet.now))) out.old }
{
    pack::pack_report(link_records::name_write(Link(link), Moment(clock), packet, out))
}

// `response` and `packet` are the lengths of the outputs that the event is lent.
#[unsafe(no_mangle)]
pub extern "C" fn fp_record_key_based_write(
    link: u8,
    clock: u64,
    request: &[u8],
    element: FpElement,
    salt: &[u8; 9],
    nonce: &[u8; 8],
    response: usize,
    packet: usize,
    out: &mut [u8],
) -> FpReport
    ensures value { result ≡ packed_report (record_report (OnLink link clock (KeyBasedWrite request.now (element_of element) salt.now nonce.now (zeros response) (zeros packet))) out.old) }
    ensures out_after { out.new ≡ record_placed (OnLink link clock (KeyBasedWrite request.now (element_of element) salt.now nonce.now (zeros response) (zeros packet))) out.old }
{
    let point = unpack::element(element);
    let report = link_records::key_based_write(
        Link(link),
        Moment(clock),
        request,
        point,
        *salt,
        *nonce,
        response,
        packet,
        out,
    );
    pack::pack_report(report)
}
