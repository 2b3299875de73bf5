// The records of events on a link.
ghost use Rattle.std.specs.Prelude.{◌≡◌};
ghost use Rattle.pairing.specs.Pairing.{PairingStarted, ConfirmationNeeded, PasskeyWrite, PairingEnded, AccountKeyWrite, NameWrite};
ghost use Rattle.provider.specs.Rules.Event.{OnLink, LinkUp, LinkDown, KeyBasedWrite, OnSession};
ghost use Rattle.recording.specs.Reading.{zeros};
ghost use Rattle.recording.specs.Writing.{record_report, record_placed};

use basics::{Answer, Link, Moment};
use recording::{Kind, frame};

pub fn link_up(link: Link, clock: Moment, out: &mut [u8]) -> Result<usize, Answer>
    ensures value { result ≡ record_report (OnLink link.0 clock.0 LinkUp) out.old }
    ensures out_after { out.new ≡ record_placed (OnLink link.0 clock.0 LinkUp) out.old }
{
    frame::write(Kind::LinkUp, &[&[link.0], &clock.0.to_be_bytes()], out)
}

pub fn link_down(link: Link, clock: Moment, out: &mut [u8]) -> Result<usize, Answer>
    ensures value { result ≡ record_report (OnLink link.0 clock.0 LinkDown) out.old }
    ensures out_after { out.new ≡ record_placed (OnLink link.0 clock.0 LinkDown) out.old }
{
    frame::write(Kind::LinkDown, &[&[link.0], &clock.0.to_be_bytes()], out)
}

// `out_length` and `packet_length` are the lengths of the outputs that the event is lent. Zeros stand for the secret of a rejected
// point.
pub fn key_based_write(
    link: Link,
    clock: Moment,
    request: &[u8],
    element: Option<[u8; 32]>,
    salt: [u8; 9],
    nonce: [u8; 8],
    out_length: usize,
    packet_length: usize,
    out: &mut [u8],
) -> Result<usize, Answer>
    ensures value { result ≡ record_report (OnLink link.0 clock.0 (KeyBasedWrite request.now element salt nonce (zeros out_length) (zeros packet_length))) out.old }
    ensures out_after { out.new ≡ record_placed (OnLink link.0 clock.0 (KeyBasedWrite request.now element salt nonce (zeros out_length) (zeros packet_length))) out.old }
{
    frame::write(
        Kind::KeyBasedWrite,
        &[
            &[link.0],
            &clock.0.to_be_bytes(),
            request,
            &[u8::from(element.is_some())],
            &element.unwrap_or([0u8; 32]),
            &salt,
            &nonce,
            &out_length.to_be_bytes(),
            &packet_length.to_be_bytes(),
        ],
        out,
    )
}

pub fn pairing_started(
    link: Link,
    clock: Moment,
    capability: u8,
    out: &mut [u8],
) -> Result<usize, Answer>
    ensures value { result ≡ record_report (OnLink link.0 clock.0 (OnSession (PairingStarted capability))) out.old }
    ensures out_after { out.new ≡ record_placed (OnLink link.0 clock.0 (OnSession (PairingStarted capability))) out.old }
{
    frame::write(
        Kind::PairingStarted,
        &[&[link.0], &clock.0.to_be_bytes(), &[capability]],
        out,
    )
}

pub fn confirmation_needed(
    link: Link,
    clock: Moment,
    passkey: u32,
    out: &mut [u8],
) -> Result<usize, Answer>
    ensures value { result ≡ record_report (OnLink link.0 clock.0 (OnSession (ConfirmationNeeded passkey))) out.old }
    ensures out_after { out.new ≡ record_placed (OnLink link.0 clock.0 (OnSession (ConfirmationNeeded passkey))) out.old }
{
    frame::write(
        Kind::ConfirmationNeeded,
        &[&[link.0], &clock.0.to_be_bytes(), &passkey.to_be_bytes()],
        out,
    )
}

// `out_length` is the length of the output that the event is lent.
pub fn passkey_write(
    link: Link,
    clock: Moment,
    block: &[u8],
    salt: [u8; 12],
    out_length: usize,
    out: &mut [u8],
) -> Result<usize, Answer>
    ensures value { result ≡ record_report (OnLink link.0 clock.0 (OnSession (PasskeyWrite block.now salt (zeros out_length)))) out.old }
    ensures out_after { out.new ≡ record_placed (OnLink link.0 clock.0 (OnSession (PasskeyWrite block.now salt (zeros out_length)))) out.old }
{
    frame::write(
        Kind::PasskeyWrite,
        &[
            &[link.0],
            &clock.0.to_be_bytes(),
            block,
            &salt,
            &out_length.to_be_bytes(),
        ],
        out,
    )
}

pub fn pairing_ended(
    link: Link,
    clock: Moment,
    success: bool,
    out: &mut [u8],
) -> Result<usize, Answer>
    ensures value { result ≡ record_report (OnLink link.0 clock.0 (OnSession (PairingEnded success))) out.old }
    ensures out_after { out.new ≡ record_placed (OnLink link.0 clock.0 (OnSession (PairingEnded success))) out.old }
{
    frame::write(
        Kind::PairingEnded,
        &[&[link.0], &clock.0.to_be_bytes(), &[u8::from(success)]],
        out,
    )
}

pub fn account_key_write(
    link: Link,
    clock: Moment,
    block: &[u8],
    out: &mut [u8],
) -> Result<usize, Answer>
    ensures value { result ≡ record_report (OnLink link.0 clock.0 (OnSession (AccountKeyWrite block.now))) out.old }
    ensures out_after { out.new ≡ record_placed (OnLink link.0 clock.0 (OnSession (AccountKeyWrite block.now))) out.old }
{
    frame::write(
        Kind::AccountKeyWrite,
        &[&[link.0], &clock.0.to_be_bytes(), block],
        out,
    )
}

pub fn name_write(link: Link, clock: Moment, packet: &[u8], out: &mut [u8]) -> Result<usize, Answer>
    ensures value { result ≡ record_report (OnLink link.0 clock.0 (OnSession (NameWrite packet.now))) out.old }
    ensures out_after { out.new ≡ record_placed (OnLink link.0 clock.0 (OnSession (NameWrite packet.now))) out.old }
{
    frame::write(
        Kind::NameWrite,
        &[&[link.0], &clock.0.to_be_bytes(), packet],
        out,
    )
}
