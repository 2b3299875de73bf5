// The filters of published keys, in the payloads of one key and of two. These keys do not begin with 0x04, so no stored list holds
// them and no event can show them: the scenarios run all other payloads on the archive.
ghost use Rattle.std.specs.Prelude.{◌≡◌, []};
ghost use Rattle.account_keys.specs.Keys.{Kept, Valid, held, kept, stored};

use crate::hex::line;
use account_keys::{AccountKey, AccountKeys};
use advertising::{Beacon, Prompt};
use basics::Address;

pub fn run(rt: &HostRuntime) {
    let one = with_key(
        no_keys(),
        *b"\x11\x22\x33\x44\x55\x66\x77\x88\x99\x00\xaa\xbb\xcc\xdd\xee\xff",
    );
    payload(rt, "payload, one key", one);
    let first = with_key(
        no_keys(),
        *b"\x11\x11\x22\x22\x33\x33\x44\x44\x55\x55\x66\x66\x77\x77\x88\x88",
    );
    let two = with_key(
        first,
        *b"\x99\x99\x00\x00\xaa\xaa\xbb\xbb\xcc\xcc\xdd\xdd\xee\xee\xff\xff",
    );
    payload(rt, "payload, two keys", two);
}

fn no_keys() -> AccountKeys
    ensures { (result ≡ kept []) × Valid result }
{
    AccountKeys::none()
}

fn with_key(keys: AccountKeys, bytes: [u8; 16]) -> AccountKeys
    requires { Kept keys }
    ensures { (result ≡ kept (stored (held keys) (record { bytes = bytes }))) × Kept result }
{
    keys.store(AccountKey { bytes })
}

// One line: an output of 24 bytes, which held EE before.
fn payload(rt: &HostRuntime, name: &str, keys: AccountKeys)
    requires { Kept keys }
{
    let mut out = [0xEE; 24];
    let beacon = Beacon::new(Address { bytes: [0; 6] }, [0xC7, 0xC8], keys);
    let _ = beacon.payload([0x12, 0x34, 0x56], keys.count, Prompt::Show, &mut out);
    line(rt, name, &out);
}
