// The key-based write, for C.
#![tactic(auto, unfolding(crate::specs::Calls::served, crate::specs::Calls::lent_back))]

ghost use Rattle.std.specs.Prelude.{[], ◌∷◌, ◌≡◌};
ghost use Rattle.capi.specs.Calls.{lent_back, served};
ghost use Rattle.packed.specs.Packed.{element_of};
ghost use Rattle.provider.specs.Rules.Event.{OnLink, KeyBasedWrite};

use basics::{Link, Moment};
use packed::{FpDevice, FpElement, FpOutcome, pack, unpack};

#[unsafe(no_mangle)]
pub extern "C" fn fp_key_based_write(
    device: FpDevice,
    link: u8,
    clock: u64,
    request: &[u8],
    element: FpElement,
    salt: &[u8; 9],
    nonce: &[u8; 8],
    out: &mut [u8],
    packet: &mut [u8],
) -> FpOutcome
    ensures value { result ≡ served device (OnLink link clock (KeyBasedWrite request.now (element_of element) salt.now nonce.now out.old packet.old)) }
    ensures packet_after { out.new ∷ packet.new ∷ [] ≡ lent_back device (OnLink link clock (KeyBasedWrite request.now (element_of element) salt.now nonce.now out.old packet.old)) }
{
    let Some(d) = unpack::unpack(device) else {
        return crate::returned(device);
    };
    let point = unpack::element(element);
    pack::pack_outcome(d.key_based_write(
        Link(link),
        Moment(clock),
        request,
        point,
        *salt,
        *nonce,
        out,
        packet,
    ))
}
