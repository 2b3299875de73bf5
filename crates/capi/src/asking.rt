// The two questions that change nothing, for C.
#![tactic(auto, unfolding(crate::specs::Calls::told, crate::specs::Calls::written_to))]

ghost use Rattle.std.specs.Prelude.{◌≡◌};
ghost use Rattle.capi.specs.Calls.{prompt_of, told, written_to};
ghost use Rattle.provider.specs.Rules.Control.{advertised};
ghost use Rattle.provider.specs.Demands.Validity.{written};

use advertising::Prompt;
use packed::{FpDevice, FpReport, pack, unpack};

// `hide` is 0 to show the prompt, and any other number to hide it.
#[unsafe(no_mangle)]
pub extern "C" fn fp_advertisement(device: FpDevice, hide: u8, out: &mut [u8]) -> FpReport
    ensures value { result ≡ told device (λ d. advertised d (prompt_of hide)) out.old }
    ensures out_after { out.new ≡ written_to device (λ d. advertised d (prompt_of hide)) out.old }
{
    let Some(d) = unpack::unpack(device) else {
        return crate::no_report();
    };
    pack::pack_report(d.advertisement(read_prompt(hide), out))
}

#[unsafe(no_mangle)]
pub extern "C" fn fp_stored_list(device: FpDevice, out: &mut [u8]) -> FpReport
    ensures value { result ≡ told device written out.old }
    ensures out_after { out.new ≡ written_to device written out.old }
{
    let Some(d) = unpack::unpack(device) else {
        return crate::no_report();
    };
    pack::pack_report(d.stored_list(out))
}

fn read_prompt(hide: u8) -> Prompt
    ensures { result ≡ prompt_of hide }
{
    match hide {
        0 => Prompt::Show,
        _ => Prompt::Hide,
    }
}
