// Document 01, "Key-based write", over the block of source document 004, table 1: the keys that are tried, the answer that a request
// gets, what it changes, its response, and by document 02 the packet with the name, the use of a key and the address that is named.
#![tactic(auto)]

pub mod named;

ghost use Rattle.std.specs.Prelude.{◌≡◌, true, not, [], ◌∷◌, map, ◌<◌, ◌≤◌, length};
ghost use Rattle.account_keys.specs.Keys.{Kept, limit, held};
ghost use Rattle.laws.specs.Choice.{◌and◌};
ghost use Rattle.names.specs.Name as names;
ghost use Rattle.request_guard.specs.Guard as guards;
ghost use Rattle.key_based.specs.Decision as rule;
ghost use Rattle.key_based.specs.Request as spec;
ghost use Rattle.key_based.specs.Request.{sized, has_public_key, request_salt, bond_asked, name_asked};
ghost use Rattle.key_based.specs.Search.{tried, none_fits, fit, handed_over, searched};

use crate::named::Named;
use account_keys::{AccountKey, AccountKeys};
use basics::{Address, Answer, Moment};
use names::Name;
use request_guard::wait::RotationWait;
use request_guard::{Guard, Salt};
use sessions::{Session, Stage};

// The key that fits a request, with the block as it opens it and the address that this names.
#[derive(Clone, Copy)]
pub struct Found {
    pub named: Named,
    pub key: [u8; 16],
    pub plain: [u8; 16],
}

// What trying the keys came to: how many were tried, and the one that fits.
#[derive(Clone, Copy)]
pub struct Search {
    pub tried: u8,
    pub found: Option<Found>,
}

// Our two addresses, either of which a request may name.
#[derive(Clone, Copy)]
struct Addresses {
    ble: Address,
    public: Address,
}

// What a request is decided by, beside the link's session.
#[derive(Clone, Copy)]
pub struct Context {
    pub ble: Address,
    pub public: Address,
    pub pairing: bool,
    pub keys: AccountKeys,
    pub guard: Guard,
    pub wait: RotationWait,
    pub name: Name,
}

// What a request comes to: the answer, all that it hands out, the guard and the session afterwards, whether the name is sent, and
// whether the session's key is used.
#[derive(Clone, Copy)]
pub struct Decision {
    pub answer: Answer,
    pub tried: u8,
    pub named: Option<Named>,
    pub bond: Option<Address>,
    pub guard: Guard,
    pub session: Session,
    pub sends: bool,
    pub uses: bool,
}

impl Addresses {
    // The candidates of a request of 16 or 80 bytes, tried in order up to the first that fits; a rejected point gives none.
    fn try_keys(self, keys: AccountKeys, secret: Option<[u8; 32]>, request: &[u8]) -> Search
        requires { Kept keys × (sized request.now ≡ true) }
        ensures { result ≡ searched self.ble self.public (held keys) secret request.now }
    {
        let block = basics::part(request, 0);
        if request.len() != 80 {
            return self.try_owners(keys, block);
        }
        let Some(secret) = secret else {
            return none_fits(0);
        };
        let digest = sha256::digest(&secret);
        Search {
            tried: 1,
            found: self.try_key(basics::part(&digest, 0), block),
        }
    }

    // The account keys, in list order.
    fn try_owners(self, keys: AccountKeys, block: [u8; 16]) -> Search
        requires { Kept keys }
        ensures { result ≡ handed_over self.ble self.public block (tried self.ble self.public block 0 (map (λ k. k.bytes) (held keys))) }
    {
        let mut search = none_fits(0);
        for owner in &keys.keys[..keys.count] {
            search = Search {
                tried: search.tried + 1,
                found: self.try_key(owner.bytes, block),
            };
            if search.found.is_some() {
                break;
            }
        }
        search
    }

    // What a key opens a block as, if it fits.
    fn try_key(self, key: [u8; 16], block: [u8; 16]) -> Option<Found>
        ensures { result ≡ fit self.ble self.public block key }
    {
        let plain = aes128::decrypt(key, block);
        let named = named::address_named(self.ble, self.public, plain)?;
        Some(Found { named, key, plain })
    }
}

// Whether a request has one of the two lengths.
pub fn is_sized(request: &[u8]) -> bool
    ensures { result ≡ sized request.now }
{
    matches!(request.len(), 16 | 80)
}

// Decides a request; if it is accepted, the response stands in front of `out`, and the name's packet, if asked for, in front of
// `packet`.
// `secret` is what the secure element made of the public key in an 80-byte request; None for a rejected point.
pub fn decide(
    context: Context,
    session: Session,
    clock: Moment,
    request: &[u8],
    secret: Option<[u8; 32]>,
    salt: [u8; 9],
    nonce: [u8; 8],
    out: &mut [u8],
    packet: &mut [u8],
) -> Decision
    requires kept { Kept context.keys × guards.Valid context.guard × names.Valid context.name }
    requires request_value { (sized request.now ≡ true) × (16 ≤ length out.old) × (80 ≤ length packet.old) }
    ensures value { result ≡ rule.decided context session clock.0 secret request.now }
    ensures packet_after { out.new ∷ packet.new ∷ [] ≡ rule.request_outputs context session clock.0 secret request.now salt nonce out.old packet.old }
{
    let decision = decided(context, session, clock, request, secret);
    let key = decision.session.key;
    if decision.answer.is_taken() {
        out[..16].copy_from_slice(&response(key, context.public, salt));
    }
    if decision.sends {
        additional_data::seal(key, nonce, context.name, packet);
    }
    decision
}

// The account keys after a request: its key moves to the end, if it is used.
pub fn used_in(uses: bool, key: [u8; 16], keys: AccountKeys) -> AccountKeys
    requires { Kept keys }
    ensures { result ≡ rule.used_in uses key keys }
{
    if uses {
        keys.used(AccountKey { bytes: key })
    } else {
        keys
    }
}

// The length of the packet with the name; 0 where none is sent.
pub fn packet_length(sends: bool, name: Name) -> u8
    requires { names.Valid name }
    ensures { result ≡ rule.packet_length sends name }
{
    if sends {
        additional_data::packet_size(name)
    } else {
        0
    }
}

// Answers 5, 16 and 6, and then what the keys tried come to.
#[tactic(auto, unfolding(crate::specs::Decision::decided))]
fn decided(
    context: Context,
    session: Session,
    clock: Moment,
    request: &[u8],
    secret: Option<[u8; 32]>,
) -> Decision
    requires { Kept context.keys × guards.Valid context.guard × (sized request.now ≡ true) }
    ensures { result ≡ rule.decided context session clock.0 secret request.now }
{
    let guard = context.guard;
    if guard.locked() {
        return refused(guard, session, Answer::LockedOut, 0);
    }
    if context.wait.on {
        return refused(guard, session, Answer::RotationAwaited, 0);
    }
    if is_unwanted(request, context.pairing) {
        return refused(guard, session, Answer::NotInPairingMode, 0);
    }
    let addresses = Addresses {
        ble: context.ble,
        public: context.public,
    };
    let search = addresses.try_keys(context.keys, secret, request);
    settled(guard, session, clock, request.len() != 80, search)
}

// No fit is a failure, a spent salt is refused, and else the request is accepted.
#[tactic(auto, unfolding(crate::specs::Decision::settled))]
fn settled(guard: Guard, session: Session, clock: Moment, uses: bool, search: Search) -> Decision
    requires { guards.Valid guard × (guard.failures.count < 10) }
    ensures { result ≡ rule.settled guard session clock.0 uses search }
{
    let Some(found) = search.found else {
        return refused(
            guard.failed(clock),
            session,
            Answer::NoKeyFits,
            search.tried,
        );
    };
    let salt = request_salt(found.plain);
    if guard.is_spent(salt) {
        return refused(guard, session, Answer::SaltSpent, search.tried);
    }
    Decision {
        answer: Answer::Taken,
        tried: search.tried,
        named: Some(found.named),
        bond: bond_asked(found.plain),
        guard: guard.accepted(salt),
        session: asked(found.key, clock),
        sends: name_asked(found.plain),
        uses,
    }
}

// An answer after `tried` keys that names and hands out no address, sends no name and uses no key.
fn refused(guard: Guard, session: Session, answer: Answer, tried: u8) -> Decision
    ensures { result ≡ rule.refused guard session answer tried }
{
    Decision {
        answer,
        tried,
        named: None,
        bond: None,
        guard,
        session,
        sends: false,
        uses: false,
    }
}

// A request with a public key while pairing mode is off.
fn is_unwanted(request: &[u8], pairing: bool) -> bool
    ensures { result ≡ (has_public_key request.now and not pairing) }
{
    request.len() == 80 && !pairing
}

fn asked(key: [u8; 16], clock: Moment) -> Session
    ensures { result ≡ rule.asked key clock.0 }
{
    Session {
        stage: Stage::Asked,
        key,
        since: clock,
        passkey: 0,
    }
}

fn none_fits(tried: u8) -> Search
    ensures { result ≡ none_fits tried }
{
    Search { tried, found: None }
}

// The salt of a request: two bytes where bytes 8 to 13 hold the seeker's address.
fn request_salt(plain: [u8; 16]) -> Salt
    ensures { result ≡ request_salt plain }
{
    let salt = if plain[1] & 0x50 == 0 {
        &plain[8..]
    } else {
        &plain[14..]
    };
    let mut bytes = [0u8; 8];
    bytes[..salt.len()].copy_from_slice(salt);
    Salt {
        length: salt.len() as u8,
        bytes,
    }
}

// The address that the request asks us to bond with.
fn bond_asked(plain: [u8; 16]) -> Option<Address>
    ensures { result ≡ bond_asked plain }
{
    let wanted = plain[1] & 0x40 != 0;
    wanted.then_some(Address {
        bytes: basics::part(&plain, 8),
    })
}

// Flag 0x20 asks for the name.
fn name_asked(plain: [u8; 16]) -> bool
    ensures { result ≡ name_asked plain }
{
    plain[1] & 0x20 != 0
}

// The response to an accepted request, encrypted with its key.
#[tactic(auto, unfolding(crate::specs::Request::response))]
fn response(key: [u8; 16], public: Address, salt: [u8; 9]) -> [u8; 16]
    ensures { result ≡ spec.response key public salt }
{
    let mut block = [0u8; 16];
    block[7..].copy_from_slice(&salt);
    block[1..7].copy_from_slice(&public.bytes);
    block[0] = 0x01;
    aes128::encrypt(key, block)
}
