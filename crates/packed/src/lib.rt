// A device as C holds it: plain numbers, without a gap between them. What C hands in may be any bytes: `unpack` tells whether they
// are served, and which device they are.
#![tactic(auto)]

pub mod pack;
pub mod unpack;

use account_keys::STORED_LIST_MAX;
use advertising::FILTER_MAX;
use basics::{Address, Moment};
use names::Name;
use provider::Identity;
use request_guard::SpentSalts;
use sessions::LINKS;

// One link: the number of its stage, 0 for idle, and what it holds.
#[repr(C)]
#[derive(Clone, Copy)]
pub struct FpSession {
    pub since: Moment,
    pub passkey: u32,
    pub stage: u8,
    pub key: [u8; 16],
    pub reserved: [u8; 3],
}

// The account keys as the stored list, of which the first `length` bytes are in use.
#[repr(C)]
#[derive(Clone, Copy)]
pub struct FpStored {
    pub length: u64,
    pub bytes: [u8; STORED_LIST_MAX],
    pub reserved: [u8; 4],
}

// A device in plain numbers, without a gap between them: what C does not name is reserved and zero.
#[repr(C)]
#[derive(Clone, Copy)]
pub struct FpDevice {
    pub clock: Moment,
    pub sessions: [FpSession; LINKS],
    pub spent: SpentSalts,
    pub failed: Moment,
    pub stored: FpStored,
    pub name: Name,
    pub identity: Identity,
    pub ble: Address,
    pub salt: [u8; 2],
    pub filter: [u8; FILTER_MAX],
    pub pairing: u8,
    pub failures: u8,
    pub awaited: u8,
    pub reserved: [u8; 5],
}

// The address that a seeker asks to be bonded with, if it asks; else zeros.
#[repr(C)]
#[derive(Clone, Copy)]
pub struct FpBond {
    pub wanted: bool,
    pub address: Address,
}

// All that an answer hands out; `confirm` is 0 where the radio is asked nothing, 1 for yes, 2 for no; `packet` is the length of the
// packet with the name, 0 where none is sent; `named` is 1 where a request named the BLE address, and then `rotate` says so to the
// radio, 2 for the public address, else 0.
#[repr(C)]
#[derive(Clone, Copy)]
pub struct FpReply {
    pub answer: u8,
    pub tried: u8,
    pub confirm: u8,
    pub packet: u8,
    pub named: u8,
    pub rotate: bool,
    pub bond: FpBond,
}

#[repr(C)]
#[derive(Clone, Copy)]
pub struct FpOutcome {
    pub next: FpDevice,
    pub reply: FpReply,
    pub reserved: [u8; 3],
}

// What became of a text that goes to a lent output, and how many bytes were written.
#[repr(C)]
#[derive(Clone, Copy)]
pub struct FpReport {
    pub length: u64,
    pub answer: u8,
    pub reserved: [u8; 7],
}

// What the secure element made of the public key in an 80-byte request; `accepted` is 0 for a rejected point.
#[repr(C)]
#[derive(Clone, Copy)]
pub struct FpElement {
    pub accepted: u8,
    pub secret: [u8; 32],
}
