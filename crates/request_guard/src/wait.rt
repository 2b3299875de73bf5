// The wait for a rotation of the BLE address (document 02, request (vii)): while it is on, key-based writes get 16.
ghost use Rattle.std.specs.Prelude.{◌≡◌};
ghost use Rattle.request_guard.specs.Wait.{no_wait, wait_after, uncounted};

use crate::Guard;

#[derive(Clone, Copy)]
pub struct RotationWait {
    pub on: bool,
}

impl RotationWait {
    // Nothing is awaited: after power-on, a rotation and a factory reset.
    pub fn none() -> RotationWait
        ensures { result ≡ no_wait }
    {
        RotationWait { on: false }
    }

    // The wait after an accepted request; `asks` says whether it asks the radio to rotate.
    pub fn after(self, asks: bool) -> RotationWait
        ensures { result ≡ wait_after asks self }
    {
        RotationWait {
            on: asks || self.on,
        }
    }

    // Whether a device can have this wait beside this guard: only bytes from elsewhere count failures while it is on.
    pub fn is_uncounted(self, guard: Guard) -> bool
        ensures { result ≡ uncounted self guard }
    {
        !self.on || guard.failures.count == 0
    }
}
