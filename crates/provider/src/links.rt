// The events on a link: those of document 01, and the name write of document 02. Each begins with the same checks; then the room
// that knows the event decides it, and the device takes over what that came to.
ghost use Rattle.std.specs.Prelude.{◌≡◌, [], ◌∷◌, ◌<◌};
ghost use Rattle.account_keys.specs.Keys.{Kept};
ghost use Rattle.names.specs.Name as names;
ghost use Rattle.pairing.specs.Pairing.{PairingStarted, ConfirmationNeeded, PasskeyWrite, PairingEnded, AccountKeyWrite, NameWrite};
ghost use Rattle.provider.specs.Demands.Validity.{Valid};
ghost use Rattle.provider.specs.Rules.Device.{on_known_link, Continues};
ghost use Rattle.provider.specs.Rules.Event as rule;
ghost use Rattle.provider.specs.Rules.Event.{step, OnLink, LinkUp, LinkDown, KeyBasedWrite, OnSession};
ghost use Rattle.sessions.specs.Sessions.{link_count, session_at};

use crate::{Device, Outcome, Reply};
use basics::{Answer, Link, Moment};
use key_based::named::Named;
use key_based::{Context, Decision};
use pairing::SessionOutcome;
use sessions::Session;

impl Device {
    pub fn link_up(mut self, link: Link, clock: Moment) -> Outcome
        requires { Valid self }
        ensures { result ≡ (step self (OnLink link.0 clock.0 LinkUp)).gives }
    {
        match self.on_known_link(link, clock, Ok(())) {
            Ok(mut device) => {
                device.sessions = device.sessions.with(link, Session::idle());
                device.answers(Answer::Taken)
            }
            Err(refused) => refused,
        }
    }

    // A link that goes down drops its K as one that comes up does.
    pub fn link_down(mut self, link: Link, clock: Moment) -> Outcome
        requires { Valid self }
        ensures { result ≡ (step self (OnLink link.0 clock.0 LinkDown)).gives }
    {
        self.link_up(link, clock)
    }

    pub fn pairing_started(mut self, link: Link, clock: Moment, capability: u8) -> Outcome
        requires { Valid self }
        ensures { result ≡ (step self (OnLink link.0 clock.0 (OnSession (PairingStarted capability)))).gives }
    {
        self.on_session(link, clock, Ok(()), |session| {
            pairing::pairing_started(session, clock, capability)
        })
    }

    pub fn confirmation_needed(mut self, link: Link, clock: Moment, passkey: u32) -> Outcome
        requires { Valid self }
        ensures { result ≡ (step self (OnLink link.0 clock.0 (OnSession (ConfirmationNeeded passkey)))).gives }
    {
        self.on_session(link, clock, passkey_range(passkey), |session| {
            pairing::confirmation_needed(session, clock, passkey)
        })
    }

    pub fn passkey_write(
        mut self,
        link: Link,
        clock: Moment,
        block: &[u8],
        salt: [u8; 12],
        out: &mut [u8],
    ) -> Outcome
        requires { Valid self }
        ensures value { result ≡ (step self (OnLink link.0 clock.0 (OnSession (PasskeyWrite block.now salt out.old)))).gives }
        ensures out_after { out.new ∷ [] ≡ (step self (OnLink link.0 clock.0 (OnSession (PasskeyWrite block.now salt out.old)))).leaves }
    {
        let device = match self.on_known_link(link, clock, response_room(out.len())) {
            Ok(device) => device,
            Err(refused) => return refused,
        };
        device.applied(
            link,
            pairing::passkey_write(device.sessions.at(link), clock, block, salt, out),
        )
    }

    pub fn pairing_ended(mut self, link: Link, clock: Moment, success: bool) -> Outcome
        requires { Valid self }
        ensures { result ≡ (step self (OnLink link.0 clock.0 (OnSession (PairingEnded success)))).gives }
    {
        self.on_session(link, clock, Ok(()), |session| {
            pairing::pairing_ended(session, clock, success)
        })
    }

    pub fn account_key_write(mut self, link: Link, clock: Moment, block: &[u8]) -> Outcome
        requires { Valid self }
        ensures { result ≡ (step self (OnLink link.0 clock.0 (OnSession (AccountKeyWrite block.now)))).gives }
    {
        self.on_session(link, clock, Ok(()), |session| {
            pairing::account_key_write(session, block)
        })
    }

    pub fn name_write(mut self, link: Link, clock: Moment, packet: &[u8]) -> Outcome
        requires { Valid self }
        ensures { result ≡ (step self (OnLink link.0 clock.0 (OnSession (NameWrite packet.now)))).gives }
    {
        self.on_session(link, clock, name_size(packet), |session| {
            pairing::name_write(session, packet)
        })
    }

    pub fn key_based_write(
        mut self,
        link: Link,
        clock: Moment,
        request: &[u8],
        element: Option<[u8; 32]>,
        salt: [u8; 9],
        nonce: [u8; 8],
        out: &mut [u8],
        packet: &mut [u8],
    ) -> Outcome
        requires { Valid self }
        ensures value { result ≡ (step self (OnLink link.0 clock.0 (KeyBasedWrite request.now element salt nonce out.old packet.old))).gives }
        ensures packet_after { out.new ∷ packet.new ∷ [] ≡ (step self (OnLink link.0 clock.0 (KeyBasedWrite request.now element salt nonce out.old packet.old))).leaves }
    {
        let early = request_size(request, out.len(), packet.len());
        let device = match self.on_known_link(link, clock, early) {
            Ok(device) => device,
            Err(refused) => return refused,
        };
        device.requested(
            link,
            key_based::decide(
                device.context(),
                device.sessions.at(link),
                clock,
                request,
                element,
                salt,
                nonce,
                out,
                packet,
            ),
        )
    }

    // An event on a link's session that lends no output: the checks, and then what `event` makes of the session.
    fn on_session<F: FnOnce(Session) -> SessionOutcome>(
        self,
        link: Link,
        clock: Moment,
        early: Result<(), Answer>,
        event: F,
    ) -> Outcome
        requires valid { Valid self }
        requires callable { F.IsAlwaysCallable event }
        ensures { Continues (on_known_link self link.0 clock.0 early) (λ device next. (outcome : SessionOutcome) × F.post event (session_at device.sessions link.0) outcome × (next ≡ rule.applied device link.0 outcome)) result }
    {
        match self.on_known_link(link, clock, early) {
            Ok(device) => device.applied(link, event(device.sessions.at(link))),
            Err(refused) => refused,
        }
    }

    // The device with what an event made of its session.
    fn applied(self, link: Link, outcome: SessionOutcome) -> Outcome
        requires { (link.0 < link_count) × Kept self.keys }
        ensures { result ≡ rule.applied self link.0 outcome }
    {
        let keys = outcome.stored_in(self.keys);
        Outcome {
            next: Device {
                sessions: self.sessions.with(link, outcome.session),
                keys,
                beacon: self.beacon.refreshed(outcome.adds_to(self.keys), keys),
                name: outcome.renamed_in(self.name),
                ..self
            },
            reply: Reply {
                confirm: outcome.confirm,
                ..Reply::of(outcome.answer)
            },
        }
    }

    // What a request is decided by.
    fn context(self) -> Context
        ensures { result ≡ rule.context_of self }
    {
        Context {
            ble: self.beacon.ble,
            public: self.identity.public,
            pairing: self.beacon.pairing,
            keys: self.keys,
            guard: self.guard,
            wait: self.wait,
            name: self.name,
        }
    }

    // The device after a request that was decided so.
    fn requested(mut self, link: Link, decision: Decision) -> Outcome
        requires { (link.0 < link_count) × Kept self.keys × names.Valid self.name }
        ensures { result ≡ rule.requested self link.0 decision }
    {
        self.keys = key_based::used_in(decision.uses, decision.session.key, self.keys);
        self.guard = decision.guard;
        self.wait = self
            .wait
            .after(decision.named.is_some_and(Named::asks_rotation));
        self.sessions = self.sessions.with(link, decision.session);
        Outcome {
            next: self,
            reply: Reply {
                tried: decision.tried,
                named: decision.named,
                bond: decision.bond,
                packet: key_based::packet_length(decision.sends, self.name),
                ..Reply::of(decision.answer)
            },
        }
    }
}

// Answer 3: a passkey has six digits.
fn passkey_range(passkey: u32) -> Result<(), Answer>
    ensures { result ≡ rule.passkey_range passkey }
{
    if 999999 < passkey {
        return Err(Answer::PasskeyTooLarge);
    }
    Ok(())
}

// Answer 13: a response has 16 bytes.
fn response_room(length: usize) -> Result<(), Answer>
    ensures { result ≡ rule.response_room length }
{
    if length < 16 {
        return Err(Answer::OutputTooShort);
    }
    Ok(())
}

// Answer 13 of a key-based write: a packet has up to 80 bytes, which are asked for even where none is sent.
fn outputs_room(response: usize, packet: usize) -> Result<(), Answer>
    ensures { result ≡ rule.outputs_room response packet }
{
    if packet < 80 {
        return Err(Answer::OutputTooShort);
    }
    response_room(response)
}

// Answers 2 and 13.
fn request_size(request: &[u8], response: usize, packet: usize) -> Result<(), Answer>
    ensures { result ≡ rule.request_size request.now response packet }
{
    if !key_based::is_sized(request) {
        return Err(Answer::WrongLength);
    }
    outputs_room(response, packet)
}

// Answer 2 of a name write.
fn name_size(packet: &[u8]) -> Result<(), Answer>
    ensures { result ≡ rule.name_size packet.now }
{
    if !additional_data::is_sized(packet) {
        return Err(Answer::WrongLength);
    }
    Ok(())
}
