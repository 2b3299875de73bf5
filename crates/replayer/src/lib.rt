// What C links to replay a recording that arrives in parts. include/fastpair.h is the page for C.
#![tactic(auto)]

mod pack;
mod unpack;

ghost use Rattle.std.specs.Prelude.{◌≡◌};
ghost use Rattle.reassembly.specs.Parts.{behind_part};
ghost use Rattle.replay.specs.Parts.{start_stream};
ghost use Rattle.replayer.specs.Calls as spec;

use packed::FpDevice;
use reassembly::RECORD_MAX;
use replay::parts::Stream;

// A replay between two calls: the first `held` of `bytes` are those of a record that is not whole yet; `skip` more bytes are still to be
// skipped. In plain numbers, without a gap between them.
#[repr(C)]
#[derive(Clone, Copy)]
pub struct FpReplay {
    pub device: FpDevice,
    pub number: u64,
    pub held: u64,
    pub skip: u64,
    pub bytes: [u8; RECORD_MAX],
    pub started: u8,
    pub reserved: [u8; 5],
}

// The line of an event; zeros where there is none.
#[repr(C)]
#[derive(Clone, Copy)]
pub struct FpLine {
    pub number: u64,
    pub keys: u64,
    pub kind: u8,
    pub answer: u8,
    pub reserved: [u8; 6],
}

// `status` is 1 where there is a line, 0 where there is none, and 255 for bytes that are no replay.
#[repr(C)]
#[derive(Clone, Copy)]
pub struct FpFed {
    pub next: FpReplay,
    pub line: FpLine,
    pub at: u64,
    pub status: u8,
    pub reserved: [u8; 7],
}

#[unsafe(no_mangle)]
pub extern "C" fn fp_replay_start() -> FpReplay
    ensures { result ≡ spec.packed_stream start_stream }
{
    pack::stream(Stream::start())
}

#[tactic(auto, unfolding(crate::specs::Calls::fed_call))]
#[unsafe(no_mangle)]
pub extern "C" fn fp_replay_feed(replay: FpReplay, part: &[u8], at: usize) -> FpFed
    ensures { result ≡ spec.fed_call replay part.now at }
{
    let Some(stream) = unpack::unpack(replay) else {
        return returned(replay, behind_part(part, at));
    };
    pack::fed(stream.feed(part, at))
}

#[tactic(auto, unfolding(crate::specs::Calls::ended_call))]
#[unsafe(no_mangle)]
pub extern "C" fn fp_replay_end(replay: FpReplay) -> FpFed
    ensures { result ≡ spec.ended_call replay }
{
    let Some(stream) = unpack::unpack(replay) else {
        return returned(replay, 0);
    };
    pack::ended(stream.end())
}

// Bytes that are no replay come back as they were.
fn returned(replay: FpReplay, at: usize) -> FpFed
    ensures { result ≡ spec.returned replay at }
{
    FpFed {
        next: replay,
        line: pack::no_line(),
        at: at as u64,
        status: 255,
        reserved: [0; 7],
    }
}

// The part counts as read, so that a loop over it ends.
fn behind_part(part: &[u8], at: usize) -> usize
    ensures { result ≡ behind_part part.now at }
{
    part.len().max(at)
}
