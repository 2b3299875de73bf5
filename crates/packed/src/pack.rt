// Devices, replies and reports in plain numbers.
ghost use Rattle.std.specs.Prelude.{◌≡◌};
ghost use Rattle.account_keys.specs.Keys as account;
ghost use Rattle.packed.specs.Packed as spec;
ghost use Rattle.provider.specs.Demands.Validity.{Valid};

use crate::{FpBond, FpDevice, FpOutcome, FpReply, FpReport, FpSession, FpStored};
use account_keys::{AccountKeys, STORED_LIST_MAX};
use advertising::Beacon;
use basics::{Address, Answer};
use key_based::named::Named;
use pairing::Confirm;
use provider::{Device, Outcome, Reply};
use sessions::{LINKS, Session, Sessions};

#[tactic(auto, unfolding(crate::specs::Packed::packed))]
pub fn pack(device: Device) -> FpDevice
    requires { Valid device }
    ensures { result ≡ spec.packed device }
{
    let Beacon {
        ble,
        salt,
        filter,
        pairing,
    } = device.beacon;
    FpDevice {
        clock: device.clock,
        sessions: pack_links(device.sessions),
        spent: device.guard.spent,
        failed: device.guard.failures.last,
        stored: pack_keys(device.keys),
        name: device.name,
        identity: device.identity,
        ble,
        salt,
        filter,
        pairing: flag(pairing),
        failures: device.guard.failures.count,
        awaited: flag(device.wait.on),
        reserved: [0; 5],
    }
}

pub fn pack_outcome(outcome: Outcome) -> FpOutcome
    requires { Valid outcome.next }
    ensures { result ≡ spec.packed_outcome outcome }
{
    FpOutcome {
        next: pack(outcome.next),
        reply: pack_reply(outcome.reply),
        reserved: [0; 3],
    }
}

pub fn pack_report(report: Result<usize, Answer>) -> FpReport
    ensures { result ≡ spec.packed_report report }
{
    match report {
        Ok(length) => report_numbers(length, Answer::Taken),
        Err(answer) => report_numbers(0, answer),
    }
}

// Any answer, with any length.
pub fn report_numbers(length: usize, answer: Answer) -> FpReport
    ensures { result ≡ spec.report_numbers length answer }
{
    FpReport {
        length: length as u64,
        answer: answer.number(),
        reserved: [0; 7],
    }
}

fn pack_links(sessions: Sessions) -> [FpSession; LINKS]
    ensures { result ≡ spec.packed_links sessions }
{
    sessions.links.map(pack_session)
}

fn pack_session(session: Session) -> FpSession
    ensures { result ≡ spec.packed_session session }
{
    let Session {
        since,
        passkey,
        stage,
        key,
    } = session;
    FpSession {
        since,
        passkey,
        stage: stage.number(),
        key,
        reserved: [0; 3],
    }
}

fn pack_keys(keys: AccountKeys) -> FpStored
    requires { account.Valid keys }
    ensures { result ≡ spec.packed_keys keys }
{
    let mut bytes = [0; STORED_LIST_MAX];
    let length = keys.write(&mut bytes).unwrap_or(0);
    FpStored {
        length: length as u64,
        bytes,
        reserved: [0; 4],
    }
}

pub fn flag(on: bool) -> u8
    ensures { result ≡ spec.flag on }
{
    u8::from(on)
}

fn pack_reply(reply: Reply) -> FpReply
    ensures { result ≡ spec.packed_reply reply }
{
    FpReply {
        answer: reply.answer.number(),
        tried: reply.tried,
        confirm: confirm_number(reply.confirm),
        packet: reply.packet,
        named: reply.named.map_or(0, Named::number),
        rotate: reply.named.is_some_and(Named::asks_rotation),
        bond: pack_bond(reply.bond),
    }
}

fn pack_bond(bond: Option<Address>) -> FpBond
    ensures { result ≡ spec.packed_bond bond }
{
    FpBond {
        wanted: bond.is_some(),
        address: bond.unwrap_or(Address { bytes: [0; 6] }),
    }
}

fn confirm_number(confirm: Option<Confirm>) -> u8
    ensures { result ≡ spec.confirm_number confirm }
{
    match confirm {
        None => 0,
        Some(Confirm::Yes) => 1,
        Some(Confirm::No) => 2,
    }
}
