// The address that a request names (document 02, request (vii)).
ghost use Rattle.std.specs.Prelude.{◌≡◌, Some};
ghost use Rattle.key_based.specs.Named.{named_number, address_named, asks_rotation};

use basics::Address;

// One of the two addresses that a request may name.
#[derive(Clone, Copy)]
pub enum Named {
    Ble,
    Public,
}

impl Named {
    // The number that C sees; 0 stands for neither.
    pub fn number(self) -> u8
        ensures { result ≡ named_number (Some self) }
    {
        match self {
            Named::Ble => 1,
            Named::Public => 2,
        }
    }

    // Whoever can name the BLE address has seen it, so it is to be rotated.
    pub fn asks_rotation(self) -> bool
        ensures { result ≡ asks_rotation (Some self) }
    {
        matches!(self, Named::Ble)
    }
}

// The address that a block names; of two equal ones the BLE address.
#[tactic(auto, unfolding(crate::specs::Named::address_named))]
pub fn address_named(ble: Address, public: Address, plain: [u8; 16]) -> Option<Named>
    ensures { result ≡ address_named ble public plain }
{
    if plain[0] != 0x00 {
        return None;
    }
    let named = &plain[2..8];
    if basics::same(named, &ble.bytes) {
        Some(Named::Ble)
    } else if basics::same(named, &public.bytes) {
        Some(Named::Public)
    } else {
        None
    }
}
