// Pairing events, the passkey write, the account key write and the name write, for C.
#![tactic(auto, unfolding(crate::specs::Calls::served, crate::specs::Calls::lent_back))]

ghost use Rattle.std.specs.Prelude.{◌≡◌, not, [], ◌∷◌, eqb};
ghost use Rattle.capi.specs.Calls.{served, lent_back};
ghost use Rattle.pairing.specs.Pairing.{PairingStarted, ConfirmationNeeded, PasskeyWrite, PairingEnded, AccountKeyWrite, NameWrite};
ghost use Rattle.provider.specs.Rules.Event.{OnLink, OnSession};

use basics::{Link, Moment};
use packed::{FpDevice, FpOutcome, pack, unpack};

#[unsafe(no_mangle)]
pub extern "C" fn fp_pairing_started(
    device: FpDevice,
    link: u8,
    clock: u64,
    capability: u8,
) -> FpOutcome
    ensures { result ≡ served device (OnLink link clock (OnSession (PairingStarted capability))) }
{
    let Some(d) = unpack::unpack(device) else {
        return crate::returned(device);
    };
    pack::pack_outcome(d.pairing_started(Link(link), Moment(clock), capability))
}

#[unsafe(no_mangle)]
pub extern "C" fn fp_confirmation_needed(
    device: FpDevice,
    link: u8,
    clock: u64,
    passkey: u32,
) -> FpOutcome
    ensures { result ≡ served device (OnLink link clock (OnSession (ConfirmationNeeded passkey))) }
{
    let Some(d) = unpack::unpack(device) else {
        return crate::returned(device);
    };
    pack::pack_outcome(d.confirmation_needed(Link(link), Moment(clock), passkey))
}

#[unsafe(no_mangle)]
pub extern "C" fn fp_passkey_write(
    device: FpDevice,
    link: u8,
    clock: u64,
    block: &[u8],
    salt: &[u8; 12],
    out: &mut [u8],
) -> FpOutcome
    ensures value { result ≡ served device (OnLink link clock (OnSession (PasskeyWrite block.now salt.now out.old))) }
    ensures out_after { out.new ∷ [] ≡ lent_back device (OnLink link clock (OnSession (PasskeyWrite block.now salt.now out.old))) }
{
    let Some(d) = unpack::unpack(device) else {
        return crate::returned(device);
    };
    pack::pack_outcome(d.passkey_write(Link(link), Moment(clock), block, *salt, out))
}

// `success` is 0 for a pairing that failed, and any other number for one that succeeded.
#[unsafe(no_mangle)]
pub extern "C" fn fp_pairing_ended(device: FpDevice, link: u8, clock: u64, success: u8) -> FpOutcome
    ensures { result ≡ served device (OnLink link clock (OnSession (PairingEnded (not (eqb success 0))))) }
{
    let Some(d) = unpack::unpack(device) else {
        return crate::returned(device);
    };
    pack::pack_outcome(d.pairing_ended(Link(link), Moment(clock), success != 0))
}

#[unsafe(no_mangle)]
pub extern "C" fn fp_account_key_write(
    device: FpDevice,
    link: u8,
    clock: u64,
    block: &[u8],
) -> FpOutcome
    ensures { result ≡ served device (OnLink link clock (OnSession (AccountKeyWrite block.now))) }
{
    let Some(d) = unpack::unpack(device) else {
        return crate::returned(device);
    };
    pack::pack_outcome(d.account_key_write(Link(link), Moment(clock), block))
}

#[unsafe(no_mangle)]
pub extern "C" fn fp_name_write(device: FpDevice, link: u8, clock: u64, packet: &[u8]) -> FpOutcome
    ensures { result ≡ served device (OnLink link clock (OnSession (NameWrite packet.now))) }
{
    let Some(d) = unpack::unpack(device) else {
        return crate::returned(device);
    };
    pack::pack_outcome(d.name_write(Link(link), Moment(clock), packet))
}
