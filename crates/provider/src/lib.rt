// The Fast Pair provider: one method for each event of document 01. A device goes in by value, and the next one comes back.
#![tactic(auto)]

mod links;

ghost use Rattle.std.specs.Prelude.{◌≡◌, ◌<◌, [], Ok, OnOk, IfOk};
ghost use Rattle.account_keys.specs.Keys.{Kept, held};
ghost use Rattle.account_keys.specs.StoredList.{writing};
ghost use Rattle.basics.specs.Output.{report_of, placed};
ghost use Rattle.basics.specs.declared.Answer.TheVariants.{Taken};
ghost use Rattle.provider.specs.Demands.Validity.{Valid};
ghost use Rattle.provider.specs.Rules.Control as control;
ghost use Rattle.provider.specs.Rules.Control.{advertised};
ghost use Rattle.provider.specs.Rules.Device.{given, reply_of, clock_step, drop_all, in_time, on_known_link, Continues};
ghost use Rattle.provider.specs.Rules.Event.{step, Overflow, PowerOn, OnDevice, PairingMode, AddressRotated, FactoryReset};
ghost use Rattle.provider.specs.declared.Device.{Device};
ghost use Rattle.sessions.specs.Sessions.{link_count};

use account_keys::AccountKeys;
use advertising::{Beacon, Prompt};
use basics::{Address, Answer, Link, Moment};
use key_based::named::Named;
use names::Name;
use pairing::Confirm;
use request_guard::Guard;
use request_guard::wait::RotationWait;
use sessions::Sessions;

// All that an answer hands out.
#[derive(Clone, Copy)]
pub struct Reply {
    pub answer: Answer,
    // the number of keys tried
    pub tried: u8,
    // the address that an accepted request named
    pub named: Option<Named>,
    // the address that a seeker asked to be bonded with
    pub bond: Option<Address>,
    // the word on a passkey that was compared
    pub confirm: Option<Confirm>,
    // the length of the packet with the name; 0 where none is sent
    pub packet: u8,
}

// What power-on fixes.
#[repr(C)]
#[derive(Clone, Copy)]
pub struct Identity {
    pub public: Address,
    pub model: [u8; 3],
}

#[derive(Clone, Copy)]
pub struct Device {
    pub clock: Moment,
    pub keys: AccountKeys,
    pub sessions: Sessions,
    pub guard: Guard,
    pub wait: RotationWait,
    pub identity: Identity,
    pub beacon: Beacon,
    pub name: Name,
}

// What power-on is given besides the stored list and the name.
#[repr(C)]
#[derive(Clone, Copy)]
pub struct Start {
    pub identity: Identity,
    pub ble: Address,
    pub salt: [u8; 2],
}

// The next device, and the answer.
#[derive(Clone, Copy)]
pub struct Outcome {
    pub next: Device,
    pub reply: Reply,
}

impl Device {
    // The value before any device was made.
    pub fn off() -> Device
        ensures { result ≡ control.off }
    {
        Device {
            clock: Moment(0),
            keys: AccountKeys::none(),
            sessions: Sessions::all_idle(),
            guard: Guard::new(),
            wait: RotationWait::none(),
            identity: Identity {
                public: Address { bytes: [0u8; 6] },
                model: [0u8; 3],
            },
            beacon: Beacon::off(),
            name: Name::none(),
        }
    }

    // Power-on from the stored list and the name; if one of them is bad, the earlier device stays as it was.
    #[tactic(auto, unfolding(crate::specs::Rules::Control::power_on))]
    pub fn power_on(mut self, stored: &[u8], name: &[u8], start: Start) -> Outcome
        ensures { result ≡ (step self (PowerOn stored.now name.now start)).gives }
    {
        let Some(keys) = account_keys::read(stored) else {
            return self.answers(Answer::ListMalformed);
        };
        let Some(name) = names::read(name) else {
            return self.answers(Answer::ListMalformed);
        };
        started(keys, name, start).answers(Answer::Taken)
    }

    // Events were lost, so no link's key can be trusted any more.
    pub fn overflow(mut self) -> Outcome
        ensures { result ≡ (step self Overflow).gives }
    {
        self.drop_all().answers(Answer::Taken)
    }

    pub fn pairing_mode(mut self, on: bool, clock: Moment) -> Outcome
        requires { Valid self }
        ensures { result ≡ (step self (OnDevice clock.0 (PairingMode on))).gives }
    {
        self.on_device(clock, |mut device| {
            device.beacon.pairing = on;
            device
        })
    }

    pub fn address_rotated(mut self, ble: Address, salt: [u8; 2], clock: Moment) -> Outcome
        requires { Valid self }
        ensures { result ≡ (step self (OnDevice clock.0 (AddressRotated ble salt))).gives }
    {
        self.on_device(clock, |mut device| {
            device.beacon = device.beacon.rotated(ble, salt, device.keys);
            device.wait = RotationWait::none();
            device
        })
    }

    pub fn factory_reset(mut self, clock: Moment) -> Outcome
        requires { Valid self }
        ensures { result ≡ (step self (OnDevice clock.0 FactoryReset)).gives }
    {
        self.on_device(clock, |mut device| {
            device.sessions = Sessions::all_idle();
            device.guard = Guard::new();
            device.wait = RotationWait::none();
            device.keys = AccountKeys::none();
            device.beacon = device.beacon.with_keys(device.keys);
            device.name = Name::none();
            device
        })
    }

    // The advertising payload. Asking changes nothing and needs no clock.
    pub fn advertisement(self, prompt: Prompt, out: &mut [u8]) -> Result<usize, Answer>
        requires { Valid self }
        ensures value { result ≡ report_of (advertised self prompt) out.old }
        ensures out_after { out.new ≡ placed (advertised self prompt) out.old }
    {
        self.beacon
            .payload(self.identity.model, self.keys.count, prompt, out)
    }

    // The stored list, for memory that lasts. Asking changes nothing and needs no clock.
    pub fn stored_list(self, out: &mut [u8]) -> Result<usize, Answer>
        requires { Valid self }
        ensures value { result ≡ report_of (writing (held self.keys)) out.old }
        ensures out_after { out.new ≡ placed (writing (held self.keys)) out.old }
    {
        self.keys.write(out)
    }

    // An event of the whole device: answer 4, or `change` after the clock step.
    fn on_device<F: FnOnce(Device) -> Device>(self, clock: Moment, change: F) -> Outcome
        requires valid { Valid self }
        requires callable { (device : Device) → Valid device → F.pre change device }
        ensures { Continues (in_time self clock.0) (λ device next. (changed : Device) × F.post change device changed × (next ≡ given changed Taken)) result }
    {
        match self.in_time(clock) {
            Ok(device) => change(device).answers(Answer::Taken),
            Err(refused) => refused,
        }
    }

    // An answer that hands out nothing.
    fn answers(self, answer: Answer) -> Outcome
        ensures { result ≡ given self answer }
    {
        Outcome {
            next: self,
            reply: Reply::of(answer),
        }
    }

    // Checks 1, 2, 3, 13 and 4 of an event on a link, and the clock step; `early` is what 2, 3 and 13 came to.
    #[tactic(auto, unfolding(crate::specs::Rules::Device::on_known_link))]
    fn on_known_link(
        self,
        link: Link,
        clock: Moment,
        early: Result<(), Answer>,
    ) -> Result<Device, Outcome>
        requires { Valid self }
        ensures value { result ≡ on_known_link self link.0 clock.0 early }
        ensures passed { OnOk result (early ≡ Ok tt) }
        ensures known { OnOk result (link.0 < link_count) }
        ensures valid { IfOk result Valid }
    {
        if 7 < link.0 {
            return Err(self.answers(Answer::UnknownLink));
        }
        early.map_err(|refusal| self.answers(refusal))?;
        self.in_time(clock)
    }

    // Answer 4, or the clock step: a clock below the stored one says that events are out of order.
    #[tactic(auto, unfolding(crate::specs::Rules::Device::in_time))]
    fn in_time(self, clock: Moment) -> Result<Device, Outcome>
        requires { Valid self }
        ensures value { result ≡ in_time self clock.0 }
        ensures valid { IfOk result Valid }
    {
        if clock.0 < self.clock.0 {
            return Err(self.drop_all().answers(Answer::ClockWentBack));
        }
        Ok(self.clock_step(clock))
    }

    #[tactic(auto, unfolding(crate::specs::Rules::Device::clock_step))]
    fn clock_step(mut self, clock: Moment) -> Device
        requires { Valid self }
        ensures value { result ≡ clock_step clock.0 self }
        ensures valid { Valid result }
    {
        self.clock = clock;
        self.sessions = self.sessions.expire(clock);
        self.guard = self.guard.at_clock(clock);
        self
    }

    fn drop_all(mut self) -> Device
        ensures { result ≡ drop_all self }
    {
        self.sessions = Sessions::all_idle();
        self
    }
}

impl Reply {
    // An answer that hands out nothing.
    fn of(answer: Answer) -> Reply
        ensures { result ≡ reply_of answer }
    {
        Reply {
            answer,
            tried: 0,
            named: None,
            bond: None,
            confirm: None,
            packet: 0,
        }
    }
}

fn started(keys: AccountKeys, name: Name, start: Start) -> Device
    requires { Kept keys }
    ensures { result ≡ control.started keys name start }
{
    Device {
        clock: Moment(0),
        keys,
        sessions: Sessions::all_idle(),
        guard: Guard::new(),
        wait: RotationWait::none(),
        identity: start.identity,
        beacon: Beacon::new(start.ble, start.salt, keys),
        name,
    }
}
