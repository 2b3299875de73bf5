// Any bytes that C hands in, read as a device.
ghost use Rattle.std.specs.Prelude.{true, ◌≡◌, IfSome};
ghost use Rattle.provider.specs.Demands.Validity.{Valid};
ghost use Rattle.packed.specs.Packed as spec;

use crate::{FpDevice, FpElement, FpSession, FpStored};
use account_keys::{AccountKeys, STORED_LIST_MAX};
use advertising::Beacon;
use names::Name;
use provider::Device;
use request_guard::wait::RotationWait;
use request_guard::{Failures, Guard};
use sessions::{LINKS, Session, Sessions, Stage};

// The device that the bytes are; none where they are not served. By `?` the list and the name would be copied once more.
#[tactic(auto, unfolding(crate::specs::Packed::unpacked))]
pub fn unpack(from: FpDevice) -> Option<Device>
    ensures value { result ≡ spec.unpacked from }
    ensures valid { IfSome result Valid }
{
    let Some(keys) = list_of(from.stored) else {
        return None;
    };
    let Some(name) = from.name.read_again() else {
        return None;
    };
    if !numbers_known(from) {
        return None;
    }
    Some(with_parts(from, keys, name))
}

fn numbers_known(from: FpDevice) -> bool
    ensures { result ≡ spec.numbers_known from }
{
    guard_known(from) && stages_known(from.sessions) && flags_known(from)
}

// The counts and salts of a guard, and no failure counted while a rotation is awaited.
fn guard_known(from: FpDevice) -> bool
    ensures { result ≡ spec.guard_known from }
{
    let guard = guard_of(from);
    guard.is_bounded() && wait_of(from).is_uncounted(guard)
}

fn flags_known(from: FpDevice) -> bool
    ensures { result ≡ spec.flags_known from }
{
    from.pairing <= 1 && from.awaited <= 1
}

fn with_parts(from: FpDevice, keys: AccountKeys, name: Name) -> Device
    requires { spec.numbers_known from ≡ true }
    ensures { result ≡ spec.with_parts from keys name }
{
    let FpDevice {
        ble,
        salt,
        filter,
        ..
    } = from;
    Device {
        clock: from.clock,
        keys,
        sessions: links_of(from.sessions),
        guard: guard_of(from).cleaned(),
        wait: wait_of(from),
        identity: from.identity,
        beacon: Beacon {
            ble,
            salt,
            filter,
            pairing: from.pairing == 1,
        },
        name,
    }
}

fn guard_of(from: FpDevice) -> Guard
    ensures { result ≡ spec.guard_of from }
{
    Guard {
        spent: from.spent,
        failures: Failures {
            count: from.failures,
            last: from.failed,
        },
    }
}

fn wait_of(from: FpDevice) -> RotationWait
    ensures { result ≡ spec.wait_of from }
{
    RotationWait {
        on: from.awaited == 1,
    }
}

fn list_of(stored: FpStored) -> Option<AccountKeys>
    ensures { result ≡ spec.list_of stored }
{
    let length = stored.length as usize;
    if length <= STORED_LIST_MAX {
        account_keys::read(&stored.bytes[..length])
    } else {
        None
    }
}

// In place, since `map` goes by a copy of all links.
fn links_of(from: [FpSession; LINKS]) -> Sessions
    ensures { result ≡ spec.links_of from }
{
    let mut sessions = Sessions::all_idle();
    for (i, link) in from.iter().enumerate() {
        sessions.links[i] = session_of(*link);
    }
    sessions
}

fn stages_known(from: [FpSession; LINKS]) -> bool
    ensures { result ≡ spec.stages_known from }
{
    from.iter()
        .all(|session| Stage::try_from(session.stage).is_ok())
}

// An idle link holds nothing, whatever its other fields say.
fn session_of(from: FpSession) -> Session
    ensures { result ≡ spec.session_of from }
{
    let FpSession {
        since,
        passkey,
        stage,
        key,
        ..
    } = from;
    match Stage::try_from(stage) {
        Ok(Stage::Idle) | Err(_) => Session::idle(),
        Ok(stage) => Session {
            since,
            passkey,
            stage,
            key,
        },
    }
}

// The secret that the secure element made of a point; None if it rejected the point.
pub fn element(from: FpElement) -> Option<[u8; 32]>
    ensures { result ≡ spec.element_of from }
{
    let FpElement { accepted, secret } = from;
    (accepted != 0).then_some(secret)
}
