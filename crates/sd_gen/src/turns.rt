//! What each device that is up does in turn.
ghost use Rattle.std.specs.Prelude.{◌≡◌, ◌≤◌, ◌<◌, ◌^◌, IsTrue, length, nat_eq, OnOk, if◌then◌else◌};
ghost use Rattle.sd_sched.specs.Events.{reference_of};
ghost use Rattle.sd_sched.specs.Spelled.{is_within};
ghost use Rattle.sd_history.specs.World.{Setting};
ghost use Rattle.sd_gen.specs.Drafts.{Draft, try_if_up as try_if_up_in, try_each_up, with_starts};
ghost use Rattle.sd_gen.specs.Turns.{event_by};

use crate::driven::Driven;
use crate::driver::Driver;
use sd_num::NoMemory;
use sd_sched::Event;
use std::alloc::Global;

/// An event that each device has in its turn.
#[derive(Clone, Copy)]
pub(crate) enum Turn {
    Tick,
    Give,
    Seal,
    Ask,
}

/// How far off the estimate may be with which a device starts, in ps. The first has a better clock
/// than the others.
fn first_eps(device: u32) -> u64
    ensures { result ≡ (if nat_eq device 0 then 500 else 1000000) }
{
    if device == 0 { 500 } else { 1_000_000 }
}

impl<D: Driven> Driver<D> {
    ghost use Rattle.sd_gen.specs.Standing.{StandsFor, Becomes};

    /// The event of a device.
    fn event(&self, turn: Turn, reference: u64, device: u32) -> Event
        requires { reference ≤ 2 ^ 40 }
        ensures event { result ≡ event_by turn reference self.now.leads.items device }
        ensures within { IsTrue (is_within result) }
        ensures reference { reference_of result ≡ reference }
    {
        let counter = self.counter(device, reference);
        match turn {
            Turn::Tick => Event::Tick {
                reference,
                device,
                counter,
            },
            Turn::Give => Event::Give { reference, device },
            Turn::Seal => Event::Seal { reference, device },
            Turn::Ask => Event::Ask {
                reference,
                device,
                counter,
            },
        }
    }

    /// Tries the event of a device, if it is up.
    pub fn try_if_up(
        &mut self,
        alloc: Global,
        turn: Turn,
        reference: u64,
        d: u32,
    ) -> Result<(), NoMemory>
        requires { reference ≤ 2 ^ 40 }
        ensures leads { OnOk result (self.new.leads.items ≡ self.old.leads.items) }
        ensures stands { OnOk result
            ((setting : Setting) (x : Draft) → d < length setting.net.devices
            → StandsFor D.Driven self.old setting x
            → StandsFor D.Driven self.new setting
            (try_if_up_in setting (event_by turn reference self.old.leads.items) d x)) }
    {
        if !self.is_up(d) {
            return Ok(());
        }
        let event = self.event(turn, reference, d);
        self.try_event(alloc, &event)
    }

    /// Tries the event of each device that is up, in order.
    pub fn each_up(&mut self, alloc: Global, turn: Turn, reference: u64) -> Result<(), NoMemory>
        requires { reference ≤ 2 ^ 40 }
        ensures leads { OnOk result (self.new.leads.items ≡ self.old.leads.items) }
        ensures stands { OnOk result
            (Becomes D.Driven self.old self.new
            (λ setting x. try_each_up setting (event_by turn reference x.leads) x)) }
    {
        for d in 0..self.devices() {
            self.try_if_up(alloc, turn, reference, d)?;
        }
        Ok(())
    }

    /// Starts each device in order.
    pub fn start_all(&mut self, alloc: Global) -> Result<(), NoMemory>
        ensures { OnOk result
            (Becomes D.Driven self.old self.new (λ setting. with_starts setting)) }
    {
        for device in 0..self.devices() {
            let eps = first_eps(device);
            let start = Event::Start {
                reference: 0,
                device,
                counter: 0,
                clock: 0,
                eps,
            };
            self.try_event(alloc, &start)?;
        }
        Ok(())
    }
}
