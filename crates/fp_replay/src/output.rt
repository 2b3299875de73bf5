// Standard output through a buffer: one system call for many lines.
ghost use Rattle.std.specs.Prelude.{◌≡◌, ◌≤◌, length};
ghost use Rattle.fp_replay.specs.Reading as spec;

use replay::Line;
use std::io::{Error, Print, Write};

// A line behind the first `filled` bytes; they are written first, if there is no room behind them.
pub fn print(rt: &HostRuntime, out: &mut [u8], filled: usize, line: Line) -> usize
    requires { (83 ≤ length out.old) × (filled ≤ length out.old) }
    ensures result_after { record { bytes = out.new; filled = result } ≡ spec.printed (record { bytes = out.old; filled = filled }) line }
    ensures upper_bound { result ≤ length out.old }
{
    let at = place(rt, out, filled);
    replay_text::put_line(out, at, line)
}

// Where a line goes.
fn place(rt: &HostRuntime, out: &[u8], filled: usize) -> usize
    requires { (83 ≤ length out.now) × (filled ≤ length out.now) }
    ensures { result ≡ spec.line_place (length out.now) filled }
{
    if out.len() - filled < replay_text::LINE_MAX {
        flush(rt, out, filled);
        0
    } else {
        filled
    }
}

pub fn flush(rt: &HostRuntime, out: &[u8], filled: usize)
    requires { filled ≤ length out.now }
{
    if let Err(error) = Print::write_all(rt, &out[..filled]) {
        report(rt, b"standard output", error);
    }
}

// A message on standard error. If there is none to write to, nothing is left to tell it by.
pub fn report(rt: &HostRuntime, name: &[u8], error: Error) {
    let mut stream = rt.stderr();
    let _ = stream.write_all(name);
    let _ = eprintln!(rt; ": {error}");
}
