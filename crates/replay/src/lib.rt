// Document 02, request (iii): the replay of a recording. An event of the recording goes to the device, and a line says what became
// of it.
#![tactic(auto)]

pub mod parts;

ghost use Rattle.std.specs.Prelude.{◌≡◌};
ghost use Rattle.provider.specs.Demands.Validity.{Valid};
ghost use Rattle.provider.specs.Rules.Event.{Overflow};
ghost use Rattle.recording.specs.Reading.{event_in};
ghost use Rattle.replay.specs.Replay as spec;

use basics::Answer;
use provider::{Device, Outcome};
use recording::Kind;
use replay_events::Played;

// A replay between two events: whether a power-on was taken, how many events there were, and the device; before the first power-on
// that is taken the device is none.
#[derive(Clone, Copy)]
pub struct Replay {
    pub started: bool,
    pub number: u64,
    pub device: Device,
}

// What is printed of an event.
#[derive(Clone, Copy)]
pub struct Line {
    pub number: u64,
    pub kind: Kind,
    pub answer: u8,
    // how many keys the list holds
    pub size: usize,
}

// The next replay, and the event's line.
#[derive(Clone, Copy)]
pub struct Shown {
    pub next: Replay,
    pub line: Line,
}

impl Replay {
    pub fn start() -> Replay
        ensures { result ≡ spec.start }
    {
        Replay {
            started: false,
            number: 0,
            device: Device::off(),
        }
    }

    // The event of a record, which is given without its length field.
    pub fn show(self, record: &[u8]) -> Shown
        requires { Valid self.device }
        ensures { result ≡ spec.shown self (event_in «record».now) }
    {
        self.shown(replay_events::play(self.device, record))
    }

    // A record that the end of the recording cuts is a marker.
    pub fn show_cut(self) -> Shown
        requires { Valid self.device }
        ensures { result ≡ spec.shown self Overflow }
    {
        self.shown(replay_events::marker(self.device))
    }

    // The line of an event that was played on the device, and the replay behind it.
    #[tactic(auto, unfolding(crate::specs::Replay::shown_of))]
    fn shown(self, played: Played) -> Shown
        ensures { result ≡ spec.shown_of self played }
    {
        let number = self.number.wrapping_add(1);
        let Played { kind, outcome } = played;
        if has_device(self.started, kind, outcome.reply.answer) {
            answered(number, kind, outcome)
        } else {
            refused(number, kind, self.device)
        }
    }
}

// Whether there is a device once an event came: the first power-on that is taken makes one.
fn has_device(started: bool, kind: Kind, answer: Answer) -> bool
    ensures { result ≡ spec.has_device started kind answer }
{
    started || (kind == Kind::PowerOn && answer.is_taken())
}

#[tactic(auto, unfolding(crate::specs::Replay::answered))]
fn answered(number: u64, kind: Kind, outcome: Outcome) -> Shown
    ensures { result ≡ spec.answered number kind outcome }
{
    Shown {
        next: Replay {
            started: true,
            number,
            device: outcome.next,
        },
        line: Line {
            number,
            kind,
            answer: outcome.reply.answer.number(),
            size: outcome.next.keys.count,
        },
    }
}

// Before the first power-on that is taken: what the event came to is not taken over.
#[tactic(auto, unfolding(crate::specs::Replay::refused))]
fn refused(number: u64, kind: Kind, device: Device) -> Shown
    ensures { result ≡ spec.refused number kind device }
{
    Shown {
        next: Replay {
            started: false,
            number,
            device,
        },
        line: Line {
            number,
            kind,
            answer: 14,
            size: 0,
        },
    }
}
