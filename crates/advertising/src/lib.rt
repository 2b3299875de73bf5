// The advertising payload and the account key filter that it shows: document 01, "Advertising"; document 02 (v), the filter is kept.
#![tactic(auto)]

ghost use Rattle.std.specs.Prelude.{◌≡◌, ◌+◌, ◌<◌, ◌≤◌, length, take, drop, replicate};
ghost use mathlib.Core.List.{[], ◌∷◌, ◌++◌, foldl};
ghost use Rattle.std.proofs.Math.Seq.{paste};
ghost use Rattle.basics.specs.Output.{report_of, placed};
ghost use Rattle.sha256.specs.Hash.{sha256};
ghost use Rattle.account_keys.specs.Keys.{Kept, limit, held};
ghost use Rattle.advertising.specs.Beacon as rule;
ghost use Rattle.advertising.specs.Beacon.{beacon_payload};
ghost use Rattle.advertising.specs.Filter as filters;
ghost use Rattle.advertising.specs.Filter.{filter_size, number_at, with_number, numbers, kept_filter};
ghost use Rattle.advertising.specs.Payload as spec;

use account_keys::{AccountKeys, LIMIT};
use basics::{Address, Answer};

// The most bytes that a filter has: specs/Filter.antt, `filter_max`.
pub const FILTER_MAX: usize = 6 * LIMIT / 5 + 3;

// Whether a phone that finds its key shows the prompt.
#[derive(Clone, Copy)]
pub enum Prompt {
    Show,
    Hide,
}

// What the advertisement shows, and rotation changes. The filter is that of the device's keys with this salt; its unused bytes are
// zero.
#[derive(Clone, Copy)]
pub struct Beacon {
    pub ble: Address,
    pub salt: [u8; 2],
    pub filter: [u8; FILTER_MAX],
    pub pairing: bool,
}

impl Beacon {
    // Before any device was made: zeros.
    pub fn off() -> Beacon
        ensures { result ≡ rule.off }
    {
        Beacon {
            ble: Address { bytes: [0u8; 6] },
            salt: [0u8; 2],
            filter: [0u8; FILTER_MAX],
            pairing: false,
        }
    }

    // At power-on.
    pub fn new(ble: Address, salt: [u8; 2], keys: AccountKeys) -> Beacon
        requires { Kept keys }
        ensures { result ≡ rule.started ble salt (held keys) }
    {
        Beacon {
            ble,
            salt,
            filter: built(keys, salt),
            pairing: false,
        }
    }

    // A new salt makes other bits of the same keys.
    pub fn rotated(self, ble: Address, salt: [u8; 2], keys: AccountKeys) -> Beacon
        requires { Kept keys }
        ensures { result ≡ rule.rotated self ble salt (held keys) }
    {
        Beacon {
            ble,
            salt,
            filter: built(keys, salt),
            ..self
        }
    }

    // Other keys, with the same salt.
    pub fn with_keys(self, keys: AccountKeys) -> Beacon
        requires { Kept keys }
        ensures { result ≡ rule.with_keys self (held keys) }
    {
        Beacon {
            filter: built(keys, self.salt),
            ..self
        }
    }

    // The same if the keys have changed; their order alone shows in no bit.
    pub fn refreshed(self, changed: bool, keys: AccountKeys) -> Beacon
        requires { Kept keys }
        ensures { result ≡ rule.refreshed self changed (held keys) }
    {
        if changed { self.with_keys(keys) } else { self }
    }

    // What the provider sends, written to `out` if all of it has room there; `count` is the number of keys.
    #[tactic(auto, unfolding(crate::specs::Payload::service_data))]
    pub fn payload(
        self,
        model: [u8; 3],
        count: usize,
        prompt: Prompt,
        out: &mut [u8],
    ) -> Result<usize, Answer>
        requires { count ≤ limit }
        ensures value { result ≡ report_of (beacon_payload self model count prompt) out.old }
        ensures out_after { out.new ≡ placed (beacon_payload self model count prompt) out.old }
    {
        if self.pairing {
            write_structure(&model, out)
        } else if count == 0 {
            write_structure(&[0x00, 0x00], out)
        } else {
            self.keys_payload(count, prompt, out)
        }
    }

    // With keys: their filter, copied in, and the salt.
    fn keys_payload(self, count: usize, prompt: Prompt, out: &mut [u8]) -> Result<usize, Answer>
        requires { count ≤ limit }
        ensures value { result ≡ report_of (spec.structure (spec.keys_data (filter_size count) (take (filter_size count) self.filter) self.salt prompt)) out.old }
        ensures out_after { out.new ≡ placed (spec.structure (spec.keys_data (filter_size count) (take (filter_size count) self.filter) self.salt prompt)) out.old }
    {
        let s = filter_size(count);
        let mut sent = [0u8; FILTER_MAX + 5];
        sent[1] = (s * 16) as u8 + prompt_type(prompt);
        sent[2..s + 2].copy_from_slice(&self.filter[..s]);
        sent[s + 2] = 0x21;
        sent[s + 3..s + 5].copy_from_slice(&self.salt);
        write_structure(&sent[..s + 5], out)
    }
}

// One AD structure, written to `out` if it has room there.
fn write_structure(sent: &[u8], out: &mut [u8]) -> Result<usize, Answer>
    requires { length sent.now < 253 }
    ensures value { result ≡ report_of (spec.structure sent.now) out.old }
    ensures out_after { out.new ≡ placed (spec.structure sent.now) out.old }
{
    let end = 4 + sent.len();
    if out.len() < end {
        return Err(Answer::OutputTooShort);
    }
    out[..4].copy_from_slice(&[3 + sent.len() as u8, 0x16, 0x2C, 0xFE]);
    out[4..end].copy_from_slice(sent);
    Ok(end)
}

fn prompt_type(prompt: Prompt) -> u8
    ensures { result ≡ spec.prompt_type prompt }
{
    match prompt {
        Prompt::Show => 0,
        Prompt::Hide => 2,
    }
}

fn filter_size(n: usize) -> usize
    requires { n ≤ limit }
    ensures { result ≡ filter_size n }
{
    6 * n / 5 + 3
}

// The filter of these keys with this salt, built in the room where it is kept.
fn built(keys: AccountKeys, salt: [u8; 2]) -> [u8; FILTER_MAX]
    requires { Kept keys }
    ensures { result ≡ kept_filter (held keys) salt }
{
    let mut filter = [0u8; FILTER_MAX];
    build_filter(&mut filter[..filter_size(keys.count)], keys, salt);
    filter
}

// One salt serves all keys.
fn build_filter(filter: &mut [u8], keys: AccountKeys, salt: [u8; 2])
    requires { Kept keys × (length filter.old ≡ filter_size keys.count) }
    ensures { filter.new ≡ filters.filter (held keys) salt }
{
    filter.fill(0);
    for key in &keys.keys[..keys.count] {
        set_bits(filter, salted_hash(key.bytes, salt));
    }
}

fn salted_hash(key: [u8; 16], salt: [u8; 2]) -> [u8; 32]
    ensures { result ≡ sha256 (key ++ salt) }
{
    let mut text = [0u8; 18];
    text[16..].copy_from_slice(&salt);
    text[..16].copy_from_slice(&key);
    sha256::digest(&text)
}

// The bits of one key's eight numbers.
fn set_bits(filter: &mut [u8], hash: [u8; 32])
    requires { (0 < length filter.old) × (length filter.old < 256) }
    ensures { filter.new ≡ foldl (with_number (length filter.old)) filter.old (numbers hash) }
{
    let s = filter.len();
    for i in 0..8 {
        let m = number_at(hash, i) % (8 * s);
        filter[m / 8] |= 1 << (m % 8);
    }
}

fn number_at(hash: [u8; 32], i: usize) -> usize
    requires { i < 8 }
    ensures { result ≡ number_at hash i }
{
    u32::from_be_bytes(basics::part(&hash, 4 * i)) as usize
}
