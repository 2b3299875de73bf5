// Replays a recording as it comes: one line for each event, with its number, kind, answer and list size. docs/RECORDING.md is the page
// for it.
#![tactic(auto)]

mod files;
mod input;
mod output;
mod part;

fn main(rt: HostRuntime) {
    let mut input = io::large_buffer();
    let mut output = io::large_buffer();
    let stream = files::replay_all(&rt, &mut input, &mut output);
    part::finish(&rt, stream, &mut output);
}
