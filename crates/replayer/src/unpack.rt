// What C hands in may be any bytes: they are read as a stream, or are no replay.
ghost use Rattle.std.specs.Prelude.{◌≡◌, IfSome};
ghost use Rattle.replay.specs.Parts.{Ready};
ghost use Rattle.replayer.specs.Calls as spec;

use crate::FpReplay;
use packed::unpack;
use reassembly::Unfinished;
use replay::Replay;
use replay::parts::Stream;

// The stream that the bytes are; none where they are no replay. By `?` the device and what is held would be copied once more.
#[tactic(auto, unfolding(crate::specs::Calls::unpacked_stream))]
pub fn unpack(from: FpReplay) -> Option<Stream>
    ensures value { result ≡ spec.unpacked_stream from }
    ensures ready { IfSome result Ready }
{
    let Some(device) = unpack::unpack(from.device) else {
        return None;
    };
    if 1 < from.started {
        return None;
    }
    let Some(unfinished) = held(from).read_again() else {
        return None;
    };
    Some(Stream {
        replay: Replay {
            started: from.started == 1,
            number: from.number,
            device,
        },
        unfinished,
    })
}

// What the bytes say is held, which may be anything.
fn held(from: FpReplay) -> Unfinished
    ensures { result ≡ spec.held_in from }
{
    // the prover asks for a variable of a field that is an array
    let bytes = from.bytes;
    Unfinished {
        bytes,
        count: from.held as usize,
        skip: from.skip as usize,
    }
}
