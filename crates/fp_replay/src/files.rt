// What the recording is read from: the files that are named as arguments, joined in their order, or standard input.
ghost use Rattle.replay.specs.Parts.{Ready};
ghost use Rattle.std.specs.Prelude.{length, ◌≡◌, ◌≤◌};
ghost use Rattle.std.proofs.Common.{Break};

use crate::{input, output};
use replay::parts::Stream;
use std::env::{Env, FillError};
use std::fs::File;
use std::io::{Error, ErrorKind};
use std::ops::ControlFlow;

// What the system says of an argument that is longer than a path can be.
const ENAMETOOLONG: i32 = 36;

pub fn replay_all(rt: &HostRuntime, input: &mut [u8], out: &mut [u8]) -> Stream
    requires { 83 ≤ length out.old }
    ensures { Ready result }
{
    let mut stream = Stream::start();
    let count = argument_count(rt, input);
    if count < 2 {
        standard_input(rt, &mut stream, input, out);
    } else {
        each_file(rt, &mut stream, count, input, out);
    }
    stream
}

// How many arguments there are, the program's own name among them; `scratch` is overwritten.
fn argument_count(rt: &HostRuntime, scratch: &mut [u8]) -> usize {
    for i in 0..usize::MAX {
        if let Err(FillError::NotPresent) = rt.arg(i, scratch) {
            return i;
        }
    }
    usize::MAX
}

fn standard_input(rt: &HostRuntime, stream: &mut Stream, input: &mut [u8], out: &mut [u8])
    requires { Ready stream.old × (83 ≤ length out.old) }
    ensures { Ready stream.new }
{
    let mut source = rt.stdin();
    if let Err(error) = input::read_to_end(rt, stream, &mut source, input, out) {
        output::report(rt, b"standard input", error);
    }
}

// One file after the other. If one can't be read, the recording ends there: what comes behind a gap is not joined to what was before.
fn each_file(rt: &HostRuntime, stream: &mut Stream, count: usize, input: &mut [u8], out: &mut [u8])
    requires { Ready stream.old × (83 ≤ length out.old) }
    ensures { Ready stream.new }
{
    for i in 1..count {
        if one_file(rt, stream, i, input, out).is_break() {
            break;
        }
    }
}

// The file that an argument names; a message where it can't be read.
fn one_file(
    rt: &HostRuntime,
    stream: &mut Stream,
    i: usize,
    input: &mut [u8],
    out: &mut [u8],
) -> ControlFlow<()>
    requires { Ready stream.old × (83 ≤ length out.old) }
    ensures { Ready stream.new }
{
    let mut path = io::buffer();
    let Ok(length) = rt.arg(i, &mut path) else {
        return failed(rt, b"argument", Error::from_raw_os_error(ENAMETOOLONG));
    };
    let name = &path[..length];
    match named_file(rt, stream, name, input, out) {
        Ok(()) => ControlFlow::Continue(()),
        Err(error) => failed(rt, name, error),
    }
}

// A file can't be opened or read: a message, and the recording ends there.
fn failed(rt: &HostRuntime, name: &[u8], error: Error) -> ControlFlow<()>
    ensures { result ≡ Break tt }
{
    output::report(rt, name, error);
    ControlFlow::Break(())
}

fn named_file(
    rt: &HostRuntime,
    stream: &mut Stream,
    name: &[u8],
    input: &mut [u8],
    out: &mut [u8],
) -> Result<(), Error>
    requires { Ready stream.old × (83 ≤ length out.old) }
    ensures { Ready stream.new }
{
    let mut file = opened(rt, name)?;
    input::read_to_end(rt, stream, &mut file, input, out)
}

// A path is text for std, so a name that is no UTF-8 is one that can't be opened.
fn opened(rt: &HostRuntime, name: &[u8]) -> Result<File, Error> {
    let Ok(path) = std::str::from_utf8(name) else {
        return Err(Error::from(ErrorKind::InvalidFilename));
    };
    File::open(rt, path)
}
