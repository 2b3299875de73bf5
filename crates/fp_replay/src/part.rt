// A part of a recording: its lines are printed as soon as it has come.
ghost use Rattle.std.specs.Prelude.{◌≡◌, ◌<◌, ◌≤◌, length};
ghost use Rattle.replay.specs.Parts.{Ready, fed};
ghost use Rattle.replay.specs.Promises.{fed_part};
ghost use Rattle.fp_replay.specs.Reading as spec;

use crate::output;
use replay::parts::{Fed, Stream};

// Between two steps: `at` is where the part is read on, and `filled` how much of the output buffer is in use.
#[derive(Clone, Copy)]
pub struct Turn {
    pub stream: Stream,
    pub at: usize,
    pub filled: usize,
}

// All of a part; the lines of its records are written.
pub fn take_in(rt: &HostRuntime, stream: Stream, part: &[u8], out: &mut [u8]) -> Stream
    requires { Ready stream × (83 ≤ length out.old) }
    ensures value { result ≡ (fed_part stream part.now).next }
    ensures out_after { out.new ≡ (spec.drained stream (spec.unused out.old) part.now).output.bytes }
    ensures ready { Ready result }
{
    let turn = drain(rt, stream, part, out);
    output::flush(rt, out, turn.filled);
    turn.stream
}

// All steps of a part, one after the other.
fn drain(rt: &HostRuntime, stream: Stream, part: &[u8], out: &mut [u8]) -> Turn
    requires { Ready stream × (83 ≤ length out.old) }
    ensures filled_after { spec.state result.stream out.new result.filled ≡ spec.drained stream (spec.unused out.old) part.now }
    ensures filled_in_bounds { result.filled ≤ length out.old }
{
    let mut turn = Turn {
        stream,
        at: 0,
        filled: 0,
    };
    while turn.at < part.len() {
        turn = one(rt, turn, part, out);
    }
    turn
}

// One step, and its line if there is one.
fn one(rt: &HostRuntime, turn: Turn, part: &[u8], out: &mut [u8]) -> Turn
    requires { Ready turn.stream × (83 ≤ length out.old) × (turn.filled ≤ length out.old) }
    ensures value { result ≡ spec.turned turn (fed turn.stream part.now turn.at) out.old }
    ensures out_after { out.new ≡ spec.turned_output turn (fed turn.stream part.now turn.at) out.old }
    ensures filled_in_bounds { result.filled ≤ length out.old }
{
    let Fed { next, at, line } = turn.stream.feed(part, turn.at);
    let filled = match line {
        Some(line) => output::print(rt, out, turn.filled, line),
        None => turn.filled,
    };
    Turn {
        stream: next,
        at,
        filled,
    }
}

// The end of the recording: the line of a cut record, if there is one.
pub fn finish(rt: &HostRuntime, stream: Stream, out: &mut [u8])
    requires { Ready stream × (83 ≤ length out.old) }
    ensures { out.new ≡ (spec.finished stream (spec.unused out.old)).bytes }
{
    if let Some(line) = stream.end().line {
        let filled = output::print(rt, out, 0, line);
        output::flush(rt, out, filled);
    }
}
