// Document 02, request (viii): a replay that is fed by parts of a recording, as they come.
ghost use Rattle.std.specs.Prelude.{◌≡◌, true};
ghost use Rattle.provider.specs.Demands.Validity.{Valid};
ghost use Rattle.provider.specs.Rules.Event.{Overflow};
ghost use Rattle.reassembly.specs.Parts.{is_cut};
ghost use Rattle.recording.specs.Reading.{event_in};
ghost use Rattle.replay.specs.Parts as spec;
ghost use Rattle.replay.specs.Parts.{Ready};
ghost use Rattle.replay.specs.Replay.{shown};

use crate::{Line, Replay, Shown};
use reassembly::{Found, Unfinished};
use recording::reader;
use recording::reader::Next;

// The replay between two parts, and what is held of the one unfinished record.
#[derive(Clone, Copy)]
pub struct Stream {
    pub replay: Replay,
    pub unfinished: Unfinished,
}

// The next stream, the place where the part is read on, and the line of the record that ended, if one did.
#[derive(Clone, Copy)]
pub struct Fed {
    pub next: Stream,
    pub at: usize,
    pub line: Option<Line>,
}

// The stream behind the end of a recording, and the line of a cut record, if there was one.
#[derive(Clone, Copy)]
pub struct Ended {
    pub next: Stream,
    pub line: Option<Line>,
}

impl Stream {
    pub fn start() -> Stream
        ensures { result ≡ spec.start_stream }
    {
        Stream {
            replay: Replay::start(),
            unfinished: Unfinished::none(),
        }
    }

    // Reads a part from a place on, up to the end of one record or of the part. An empty part is not the end of the recording.
    pub fn feed(self, part: &[u8], at: usize) -> Fed
        requires { Ready self }
        ensures { result ≡ spec.fed self part.now at }
    {
        if self.unfinished.is_cut() {
            return self.read_on(part, at);
        }
        match reader::next_at(part, at) {
            Next::Record(start, end) => self.shown(&part[start..end], end),
            Next::Cut => self.waits(Unfinished::begin(part, at), part.len()),
            Next::End => self.waits(self.unfinished, at),
        }
    }

    // The end of the recording: what is held is a cut record, which is a marker.
    #[tactic(auto, unfolding(crate::specs::Parts::ended))]
    pub fn end(self) -> Ended
        requires { Ready self }
        ensures { result ≡ spec.ended self }
    {
        if !self.unfinished.is_cut() {
            return Ended {
                next: self,
                line: None,
            };
        }
        let Shown { next, line } = self.replay.show_cut();
        Ended {
            next: Stream {
                replay: next,
                unfinished: Unfinished::none(),
            },
            line: Some(line),
        }
    }

    // The part goes on in a record that began in an earlier one.
    fn read_on(self, part: &[u8], at: usize) -> Fed
        requires { Ready self × (is_cut self.unfinished ≡ true) }
        ensures { result ≡ spec.fed self part.now at }
    {
        let taken = self.unfinished.read_on(part, at);
        match taken.found {
            Found::Nothing => self.waits(taken.next, taken.at),
            Found::Held(end) => self.shown(&taken.next.bytes[2..end], taken.at),
            Found::TooLong => self.skipped(taken.at),
        }
    }

    // No record has ended.
    fn waits(self, unfinished: Unfinished, at: usize) -> Fed
        ensures { result ≡ spec.waits self unfinished at }
    {
        Fed {
            next: Stream { unfinished, ..self },
            at,
            line: None,
        }
    }

    // A record has ended, which is given without its length field.
    fn shown(self, record: &[u8], at: usize) -> Fed
        requires { Valid self.replay.device }
        ensures { result ≡ spec.fed_line (shown self.replay (event_in «record».now)) at }
    {
        fed_line(self.replay.show(record), at)
    }

    // A record has ended that was too long.
    fn skipped(self, at: usize) -> Fed
        requires { Valid self.replay.device }
        ensures { result ≡ spec.fed_line (shown self.replay Overflow) at }
    {
        fed_line(self.replay.show_cut(), at)
    }
}

// An event was shown, and nothing is held behind it.
fn fed_line(shown: Shown, at: usize) -> Fed
    ensures { result ≡ spec.fed_line shown at }
{
    let Shown { next, line } = shown;
    Fed {
        next: Stream {
            replay: next,
            unfinished: Unfinished::none(),
        },
        at,
        line: Some(line),
    }
}
