// What C firmware links: one exported function for each event and question. include/fastpair.h is their page for C. C can't hand a
// device in but as bytes, so each function begins by reading them.
#![tactic(auto)]

mod asking;
mod control;
mod pairing_events;
mod requests;

ghost use Rattle.std.specs.Prelude.{◌≡◌};
ghost use Rattle.capi.specs.Calls as calls;

use basics::Address;
use packed::{FpBond, FpDevice, FpOutcome, FpReply, FpReport};

// The answer to bytes that are not served, none of document 01's numbers.
const NOT_A_DEVICE: u8 = 255;

// The outcome of bytes that are not served: they come back as they were.
fn returned(device: FpDevice) -> FpOutcome
    ensures { result ≡ calls.returned device }
{
    FpOutcome {
        next: device,
        reply: FpReply {
            answer: NOT_A_DEVICE,
            tried: 0,
            confirm: 0,
            packet: 0,
            named: 0,
            rotate: false,
            bond: FpBond {
                wanted: false,
                address: Address { bytes: [0; 6] },
            },
        },
        reserved: [0; 3],
    }
}

fn no_report() -> FpReport
    ensures { result ≡ calls.no_report }
{
    FpReport {
        length: 0,
        answer: NOT_A_DEVICE,
        reserved: [0; 7],
    }
}
