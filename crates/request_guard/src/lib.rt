// What guards key-based writes: the last 16 accepted salts, and the failures that were counted (document 01); `wait` has the wait
// for a rotation.
#![tactic(auto)]

pub mod wait;

ghost use Rattle.std.specs.Prelude.{true, ◌≡◌, [], ◌∷◌, ◌++◌, ◌≤◌, ◌<◌, drop, eqb, if◌then◌else◌};
ghost use Rattle.request_guard.specs.Guard as spec;
ghost use Rattle.request_guard.specs.Guard.{Valid, Kept, salt_limit, salts, remembered, spent, remembering};
ghost use Rattle.request_guard.specs.Guard.{fresh, no_failures, failed_at, accepted_with, guard_at, same_salt};
ghost use Rattle.request_guard.specs.Guard.{bounded, in_use, all_sized, sized_salt, cleaned_salt, salt_room};

use basics::Moment;

// The most salts that are remembered.
const LIMIT: usize = 16;
// The salts that stay when one is forgotten.
const LAST: usize = LIMIT - 1;

// How long failures are counted after the last one, in milliseconds.
const FORGOTTEN_AFTER: u64 = 300000;

// A request's salt: its first `length` bytes, 2 or 8; the others are zero.
#[repr(C)]
#[derive(Clone, Copy)]
pub struct Salt {
    pub length: u8,
    pub bytes: [u8; 8],
}

// The salts of the last accepted requests, oldest first: the first `count`; the other places are zero.
#[repr(C)]
#[derive(Clone, Copy)]
pub struct SpentSalts {
    pub salts: [Salt; LIMIT],
    pub count: u64,
}

// How many requests in a row found no fitting key, and when the last one came; zero while the count is 0.
#[repr(C)]
#[derive(Clone, Copy)]
pub struct Failures {
    pub count: u8,
    pub last: Moment,
}

#[repr(C)]
#[derive(Clone, Copy)]
pub struct Guard {
    pub spent: SpentSalts,
    pub failures: Failures,
}

impl Guard {
    // No salt spent and no failure counted.
    pub fn new() -> Guard
        ensures { result ≡ fresh }
    {
        Guard {
            spent: SpentSalts::none(),
            failures: Failures::none(),
        }
    }

    // What the clock step does to the guard: failures are forgotten 300,000 ms after the last one.
    #[tactic(auto, unfolding(crate::specs::Guard::guard_at))]
    pub fn at_clock(mut self, now: Moment) -> Guard
        ensures { result ≡ guard_at now.0 self }
    {
        if basics::ago(now, self.failures.last) < FORGOTTEN_AFTER {
            return self;
        }
        self.failures = Failures::none();
        self
    }

    // Ten failures were counted.
    pub fn locked(self) -> bool
        ensures { result ≡ spec.locked self }
    {
        self.failures.count == 10
    }

    // A request that no key fits.
    pub fn failed(mut self, now: Moment) -> Guard
        requires { self.failures.count < 10 }
        ensures { result ≡ failed_at now.0 self }
    {
        self.failures = Failures {
            count: self.failures.count + 1,
            last: now,
        };
        self
    }

    // A request with this salt was accepted before.
    pub fn is_spent(self, salt: Salt) -> bool
        requires { Valid self }
        ensures { result ≡ spent (remembered self.spent) salt }
    {
        self.spent.holds(salt)
    }

    // A request that is accepted.
    pub fn accepted(mut self, salt: Salt) -> Guard
        requires { Valid self }
        ensures { result ≡ accepted_with salt self }
    {
        self.spent = self.spent.remember(salt);
        self.failures = Failures::none();
        self
    }

    // Whether a guard can have these counts and salts: only bytes from elsewhere have others.
    pub fn is_bounded(self) -> bool
        ensures { result ≡ bounded self }
    {
        self.spent.count <= LIMIT as u64 && self.failures.count <= 10 && self.spent.are_sized()
    }

    // The guard with nothing in the places that are not in use.
    pub fn cleaned(self) -> Guard
        requires { bounded self ≡ true }
        ensures { result ≡ spec.cleaned self }
    {
        Guard {
            spent: self.spent.in_use(),
            failures: self.failures.in_use(),
        }
    }
}

impl SpentSalts {
    fn none() -> SpentSalts
        ensures { result ≡ salts [] }
    {
        SpentSalts {
            salts: [Salt {
                length: 0,
                bytes: [0u8; 8],
            }; LIMIT],
            count: 0,
        }
    }

    fn holds(self, salt: Salt) -> bool
        requires { Kept self }
        ensures { result ≡ spent (remembered self) salt }
    {
        let n = self.count as usize;
        self.salts[..n].iter().any(|s| same_salt(*s, salt))
    }

    // The salts after one more: of sixteen, the oldest is forgotten.
    fn remember(self, salt: Salt) -> SpentSalts
        requires { Kept self }
        ensures { result ≡ salts (remembering (remembered self) salt) }
    {
        if LIMIT as u64 <= self.count {
            return self.without_oldest().push(salt);
        }
        self.push(salt)
    }

    // One salt more, last.
    fn push(mut self, salt: Salt) -> SpentSalts
        requires { Kept self × (self.count < salt_limit) }
        ensures { result ≡ salts (remembered self ++ (salt ∷ [])) }
    {
        self.salts[self.count as usize] = salt;
        self.count += 1;
        self
    }

    // The oldest salt removed from a full list.
    fn without_oldest(self) -> SpentSalts
        requires { Kept self × (salt_limit ≤ self.count) }
        ensures { result ≡ salts (drop 1 (remembered self)) }
    {
        let mut salts = SpentSalts::none().salts;
        salts[..LAST].copy_from_slice(&self.salts[1..]);
        SpentSalts {
            salts,
            count: LAST as u64,
        }
    }

    // Whether each salt in use has 2 or 8 bytes.
    fn are_sized(self) -> bool
        requires { self.count ≤ salt_limit }
        ensures { result ≡ all_sized (in_use self) }
    {
        let n = self.count as usize;
        self.salts[..n].iter().all(|s| s.is_sized())
    }

    // The salts in use, cleaned, and nothing in the other places.
    fn in_use(self) -> SpentSalts
        requires { (self.count ≤ salt_limit) × (all_sized (in_use self) ≡ true) }
        ensures { result ≡ salts (in_use self) }
    {
        let n = self.count as usize;
        let mut rest = SpentSalts::none();
        for (i, salt) in self.salts[..n].iter().enumerate() {
            rest.salts[i] = salt.cleaned();
        }
        rest.count = self.count;
        rest
    }
}

impl Salt {
    // A request's salt has 2 or 8 bytes.
    fn is_sized(self) -> bool
        ensures { result ≡ sized_salt self }
    {
        matches!(self.length, 2 | 8)
    }

    // The salt with zeros behind its length.
    fn cleaned(self) -> Salt
        requires { self.length ≤ salt_room }
        ensures { result ≡ cleaned_salt self }
    {
        let mut bytes = [0u8; 8];
        let n = self.length as usize;
        bytes[..n].copy_from_slice(&self.bytes[..n]);
        Salt {
            length: self.length,
            bytes,
        }
    }
}

fn same_salt(a: Salt, b: Salt) -> bool
    ensures { result ≡ same_salt a b }
{
    a.length == b.length && basics::same(&a.bytes, &b.bytes)
}

impl Failures {
    fn none() -> Failures
        ensures { result ≡ no_failures }
    {
        Failures {
            count: 0,
            last: Moment(0),
        }
    }

    // The failures counted; with none there is no moment.
    fn in_use(self) -> Failures
        ensures { result ≡ (if eqb self.count 0 then no_failures else self) }
    {
        if self.count == 0 {
            return Failures::none();
        }
        self
    }
}
