// Runs the published vectors and writes a line for each: its name and the result in hex. The file
// `stdout` beside `src` has the same lines from other implementations (tools/expected_vectors.py).
#![tactic(auto)]

mod cipher;
mod fast_pair;
mod filters;
mod hash;
mod hex;
mod hmac;
mod packets;

fn main(rt: HostRuntime) {
    hash::run(&rt);
    hmac::run(&rt);
    cipher::run(&rt);
    fast_pair::run(&rt);
    packets::run(&rt);
    filters::run(&rt);
}
