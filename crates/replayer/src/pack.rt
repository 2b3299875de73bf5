// A stream in plain numbers, and what a step of it gave.
ghost use Rattle.std.specs.Prelude.{◌≡◌};
ghost use Rattle.replay.specs.Parts.{Ready};
ghost use Rattle.replayer.specs.Calls as spec;

use crate::{FpFed, FpLine, FpReplay};
use packed::pack;
use reassembly::Unfinished;
use replay::Line;
use replay::parts::{Ended, Fed, Stream};

#[tactic(auto, unfolding(crate::specs::Calls::packed_stream))]
pub fn stream(from: Stream) -> FpReplay
    requires { Ready from }
    ensures { result ≡ spec.packed_stream from }
{
    let Stream { replay, unfinished } = from;
    let Unfinished { bytes, count, skip } = unfinished;
    FpReplay {
        device: pack::pack(replay.device),
        number: replay.number,
        held: count as u64,
        skip: skip as u64,
        bytes,
        started: pack::flag(replay.started),
        reserved: [0; 5],
    }
}

pub fn fed(from: Fed) -> FpFed
    requires { Ready from.next }
    ensures { result ≡ spec.packed_fed from.next from.line from.at }
{
    shown(from.next, from.line, from.at)
}

pub fn ended(from: Ended) -> FpFed
    requires { Ready from.next }
    ensures { result ≡ spec.packed_fed from.next from.line 0 }
{
    shown(from.next, from.line, 0)
}

pub fn no_line() -> FpLine
    ensures { result ≡ spec.no_line }
{
    FpLine {
        number: 0,
        keys: 0,
        kind: 0,
        answer: 0,
        reserved: [0; 6],
    }
}

// The next stream with a line, or none.
fn shown(next: Stream, line: Option<Line>, at: usize) -> FpFed
    requires { Ready next }
    ensures { result ≡ spec.packed_fed next line at }
{
    FpFed {
        next: stream(next),
        line: line_of(line),
        at: at as u64,
        status: u8::from(line.is_some()),
        reserved: [0; 7],
    }
}

fn line_of(line: Option<Line>) -> FpLine
    ensures { result ≡ spec.line_numbers line }
{
    match line {
        Some(line) => one_line(line),
        None => no_line(),
    }
}

fn one_line(from: Line) -> FpLine
    ensures { result ≡ spec.packed_line from }
{
    FpLine {
        number: from.number,
        keys: from.size as u64,
        kind: from.kind.byte(),
        answer: from.answer,
        reserved: [0; 6],
    }
}
