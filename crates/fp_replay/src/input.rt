// A recording that is read through one buffer: what a read gives is a part, and is replayed at once.
ghost use Rattle.std.specs.Prelude.{◌≡◌, ◌≤◌, length, IfOk};
ghost use Rattle.replay.specs.Parts.{Ready};
ghost use Rattle.replay.specs.Promises.{fed_part};
ghost use Rattle.fp_replay.specs.Reading as spec;

use crate::part;
use replay::parts::Stream;
use std::io::{Error, ErrorKind, Read};
use std::ops::ControlFlow;

// Reads to the end of a file. A proved loop has to end, and nothing says that a file does: the loop counts its turns, up to a number
// that no run comes to. A read that a signal interrupted is no end.
pub fn read_to_end<R: Read>(
    rt: &HostRuntime,
    stream: &mut Stream,
    source: &mut R,
    input: &mut [u8],
    out: &mut [u8],
) -> Result<(), Error>
    requires { Ready stream.old × (83 ≤ length out.old) }
    ensures { Ready stream.new }
{
    for _ in 0..u64::MAX {
        let read = source.read(input);
        if replay_read(rt, stream, read, input, out)?.is_break() {
            break;
        }
    }
    Ok(())
}

// What a read gave, replayed. It breaks off at the end; an error leaves the stream as it was.
fn replay_read(
    rt: &HostRuntime,
    stream: &mut Stream,
    read: Result<usize, Error>,
    input: &[u8],
    out: &mut [u8],
) -> Result<ControlFlow<()>, Error>
    requires ready { Ready stream.old × (83 ≤ length out.old) }
    requires within { IfOk read (λ count. count ≤ length input.now) }
    ensures value { result ≡ spec.after_read read }
    ensures fed { (stream.new ≡ (fed_part stream.old (spec.part_read read input.now)).next)
        × (out.new ≡ (spec.drained stream.old (spec.unused out.old) (spec.part_read read input.now)).output.bytes) }
    ensures ready { Ready stream.new }
{
    match read {
        Ok(0) => Ok(ControlFlow::Break(())),
        Ok(count) => {
            *stream = part::take_in(rt, *stream, &input[..count], out);
            Ok(ControlFlow::Continue(()))
        }
        Err(error) if error.kind() == ErrorKind::Interrupted => Ok(ControlFlow::Continue(())),
        Err(error) => Err(error),
    }
}
