// The pairing, passkey and account key events of document 01, and the name write of document 02. Each is a function of the link's
// session alone: what it answers, the next session, and an account key or a name to keep.
#![tactic(auto)]

ghost use Rattle.std.specs.Prelude.{◌≡◌, [], ◌∷◌, ◌<◌, ◌≤◌, length, false};
ghost use Rattle.account_keys.specs.Keys.{Kept};
ghost use Rattle.pairing.specs.Pairing as rule;
ghost use Rattle.pairing.specs.Pairing.{session_step, leaves, PairingStarted, ConfirmationNeeded, PasskeyWrite, PairingEnded, AccountKeyWrite, NameWrite};

use account_keys::{AccountKey, AccountKeys};
use basics::{Answer, Moment};
use names::Name;
use sessions::{Session, Stage};

// What the radio is to reply on a passkey that was compared.
#[derive(Clone, Copy)]
pub enum Confirm {
    Yes,
    No,
}

// What an event makes of a session: the reply on a passkey, the next session, and an account key to store or a name to take.
#[derive(Clone, Copy)]
pub struct SessionOutcome {
    pub answer: Answer,
    pub confirm: Option<Confirm>,
    pub session: Session,
    pub key: Option<AccountKey>,
    pub name: Option<Name>,
}

impl SessionOutcome {
    // The account keys after the event.
    pub fn stored_in(self, keys: AccountKeys) -> AccountKeys
        requires { Kept keys }
        ensures { result ≡ rule.stored_in self keys }
    {
        self.key.map_or(keys, |key| keys.store(key))
    }

    // Whether the event stores a key that is not held: one that is held only moves.
    pub fn adds_to(self, keys: AccountKeys) -> bool
        requires { Kept keys }
        ensures { result ≡ rule.adds_to self keys }
    {
        self.key.is_some_and(|key| !keys.holds(key))
    }

    // The device's name after the event.
    pub fn renamed_in(self, name: Name) -> Name
        ensures { result ≡ rule.renamed_in self name }
    {
        self.name.unwrap_or(name)
    }
}

#[tactic(auto, unfolding(crate::specs::Pairing::pairing_started))]
pub fn pairing_started(session: Session, clock: Moment, capability: u8) -> SessionOutcome
    ensures { result ≡ session_step (PairingStarted capability) clock.0 session }
{
    in_stage(
        session,
        Stage::Asked,
        |session| begun(session, clock, capability),
    )
}

#[tactic(auto, unfolding(crate::specs::Pairing::confirmation_needed))]
pub fn confirmation_needed(session: Session, clock: Moment, passkey: u32) -> SessionOutcome
    ensures { result ≡ session_step (ConfirmationNeeded passkey) clock.0 session }
{
    in_stage(
        session,
        Stage::Pairing,
        |session| answered(Answer::Taken, confirming(session, clock, passkey)),
    )
}

// The response stands in front of `out` if the passkeys were compared.
#[tactic(auto, unfolding(crate::specs::Pairing::passkey_output))]
pub fn passkey_write(
    session: Session,
    clock: Moment,
    block: &[u8],
    salt: [u8; 12],
    out: &mut [u8],
) -> SessionOutcome
    requires { 16 ≤ length out.old }
    ensures value { result ≡ session_step (PasskeyWrite block.now salt out.old) clock.0 session }
    ensures out_after { out.new ∷ [] ≡ leaves (PasskeyWrite block.now salt out.old) clock.0 session }
{
    let outcome = passkey_checked(session, clock, block);
    if outcome.answer.is_taken() {
        out[..16].copy_from_slice(&passkey_response(session, salt));
    }
    outcome
}

#[tactic(auto, unfolding(crate::specs::Pairing::pairing_ended))]
pub fn pairing_ended(session: Session, clock: Moment, success: bool) -> SessionOutcome
    ensures { result ≡ session_step (PairingEnded success) clock.0 session }
{
    if !success {
        return pairing_failed(session);
    }
    in_stage(
        session,
        Stage::Proved,
        |session| answered(Answer::Taken, session.moved(Stage::Paired, clock)),
    )
}

// K is dropped, whatever becomes of the block.
#[tactic(auto, unfolding(crate::specs::Pairing::account_key_write))]
pub fn account_key_write(session: Session, block: &[u8]) -> SessionOutcome
    ensures { result ≡ session_step (AccountKeyWrite block.now) 0 session }
{
    in_stage(
        session,
        Stage::Paired,
        |session| match opened_block(session.key, block, 0x04) {
            Some(plain) => key_stored(plain),
            None => dropped(Answer::BadBlock),
        },
    )
}

// From asked to proved K, stage and timer stay as they are, whatever the packet holds.
#[tactic(auto, unfolding(crate::specs::Pairing::name_write))]
pub fn name_write(session: Session, packet: &[u8]) -> SessionOutcome
    ensures { result ≡ session_step (NameWrite packet.now) 0 session }
{
    if session.is_in(Stage::Idle) {
        return answered(Answer::LinkIdle, session);
    }
    if session.is_in(Stage::Paired) {
        return dropped(Answer::WrongStage);
    }
    match additional_data::open(session.key, packet) {
        Some(name) => name_taken(session, name),
        None => answered(Answer::NameRefused, session),
    }
}

// What an event makes of a session in the stage that it needs; an idle one, or one in another stage, is refused.
#[tactic(auto, unfolding(crate::specs::Pairing::in_stage))]
fn in_stage<F: FnOnce(Session) -> SessionOutcome>(
    session: Session,
    needed: Stage,
    event: F,
) -> SessionOutcome
    requires { F.IsAlwaysCallable event }
    ensures { (meant : Session → SessionOutcome) → ((o : SessionOutcome) → F.post event session o → o ≡ meant session) → result ≡ rule.in_stage needed meant session }
{
    if session.is_in(Stage::Idle) {
        answered(Answer::LinkIdle, session)
    } else if session.is_in(needed) {
        event(session)
    } else {
        dropped(Answer::WrongStage)
    }
}

fn begun(session: Session, clock: Moment, capability: u8) -> SessionOutcome
    ensures { result ≡ rule.begun clock.0 capability session }
{
    if is_refused(capability) {
        dropped(Answer::CapabilityRefused)
    } else {
        answered(Answer::Taken, session.moved(Stage::Pairing, clock))
    }
}

// A failed pairing ends whatever stage the link was in.
fn pairing_failed(session: Session) -> SessionOutcome
    ensures { result ≡ rule.pairing_failed session }
{
    if session.is_in(Stage::Idle) {
        return answered(Answer::LinkIdle, session);
    }
    dropped(Answer::Taken)
}

#[tactic(auto, unfolding(crate::specs::Pairing::passkey_write))]
fn passkey_checked(session: Session, clock: Moment, block: &[u8]) -> SessionOutcome
    ensures { result ≡ rule.passkey_write clock.0 block.now session }
{
    in_stage(
        session,
        Stage::Confirming,
        |session| match opened_block(session.key, block, 0x02) {
            Some(plain) => compared(session, clock, plain),
            None => dropped(Answer::BadBlock),
        },
    )
}

// The block as the key decrypts it, if it has 16 bytes and the first one is as wanted.
fn opened_block(key: [u8; 16], block: &[u8], first: u8) -> Option<[u8; 16]>
    ensures { result ≡ rule.opened_block first key block.now }
{
    let plain = aes128::decrypt(key, block.try_into().ok()?);
    (plain[0] == first).then_some(plain)
}

// Yes and the stage proved, or no and K dropped.
#[tactic(auto, unfolding(crate::specs::Pairing::compared_passkey))]
fn compared(session: Session, clock: Moment, plain: [u8; 16]) -> SessionOutcome
    ensures { result ≡ rule.compared_passkey clock.0 session plain }
{
    if passkey_in(plain) == session.passkey {
        confirmed(Confirm::Yes, session.moved(Stage::Proved, clock))
    } else {
        confirmed(Confirm::No, Session::idle())
    }
}

fn confirmed(confirm: Confirm, session: Session) -> SessionOutcome
    ensures { result ≡ rule.confirmed confirm session }
{
    SessionOutcome {
        confirm: Some(confirm),
        ..answered(Answer::Taken, session)
    }
}

fn key_stored(plain: [u8; 16]) -> SessionOutcome
    ensures { result ≡ rule.key_stored plain }
{
    SessionOutcome {
        key: Some(AccountKey { bytes: plain }),
        ..dropped(Answer::Taken)
    }
}

fn name_taken(session: Session, name: Name) -> SessionOutcome
    ensures { result ≡ rule.name_taken session name }
{
    SessionOutcome {
        name: Some(name),
        ..answered(Answer::Taken, session)
    }
}

// An answer that confirms, stores and renames nothing.
fn answered(answer: Answer, session: Session) -> SessionOutcome
    ensures { result ≡ rule.answered answer session }
{
    SessionOutcome {
        answer,
        confirm: None,
        session,
        key: None,
        name: None,
    }
}

fn dropped(answer: Answer) -> SessionOutcome
    ensures { result ≡ rule.dropped answer }
{
    answered(answer, Session::idle())
}

fn is_refused(capability: u8) -> bool
    ensures { result ≡ rule.refused_capability capability }
{
    capability == 3 || 4 < capability
}

fn confirming(session: Session, clock: Moment, passkey: u32) -> Session
    ensures { result ≡ rule.confirming clock.0 passkey session }
{
    Session {
        passkey,
        ..session.moved(Stage::Confirming, clock)
    }
}

// Our passkey and the event's salt, under K.
fn passkey_response(session: Session, salt: [u8; 12]) -> [u8; 16]
    ensures { result ≡ rule.passkey_response session salt }
{
    let mut block = [0u8; 16];
    block[..4].copy_from_slice(&session.passkey.to_be_bytes());
    block[0] = 0x03;
    block[4..].copy_from_slice(&salt);
    aes128::encrypt(session.key, block)
}

fn passkey_in(plain: [u8; 16]) -> u32
    ensures { result ≡ rule.passkey_in plain }
{
    u32::from_be_bytes([0, plain[1], plain[2], plain[3]])
}
