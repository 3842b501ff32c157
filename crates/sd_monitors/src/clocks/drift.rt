//! The premise on drift: any two readings of one life of a device keep the rates of its oscillator.
//! A life begins with a start or join.
ghost use Rattle.std.specs.Prelude.{◌≡◌, ℕ, ◌<◌, ◌∷◌, [], List, length, IsTrue, IfOk, if◌then◌else◌};
ghost use Rattle.std.specs.Option.{ForSome};
ghost use Rattle.sd_plan.specs.topo.Network.{rates_of};
ghost use Rattle.sd_plan.specs.topo.Topologies.{network};
ghost use Rattle.sd_sched.specs.Events.{device_of};
ghost use Rattle.sd_history.specs.World.{Setting, Seen as Sight};
ghost use Rattle.sd_history.specs.Premises.{drift_holds, readings};
ghost use Rattle.sd_history.specs.Refusals.{makes_some};
ghost use Rattle.sd_history.specs.Open.{may_be_seen};
ghost use Rattle.sd_monitors.specs.clocks.Sights.{sight_of};
ghost use Rattle.sd_monitors.specs.clocks.Readings.{pair_of, is_after_each, keeps_rates_with, least_offsets};
ghost use Rattle.sd_monitors.specs.clocks.Drifts.{reading_of, IsReading, DriftStands};

use crate::clocks::Seen;
use crate::clocks::offsets::{Offsets, Reading};
use sd_num::{NoMemory, Rates};
use sd_plan::topo::Topology;
use sd_sched::Event;
use std::alloc::Global;
use std::marker::Model;

/// How far a device's counter lay off the reference at least in its present life, and the rates of
/// its oscillator, so that a reading asks for nothing else.
#[derive(Clone, Copy)]
pub struct Life {
    rates: Rates,
    offsets: Offsets,
}

/// Whether the premise on drift has held so far, and the present life of each device.
#[derive(Drop)]
pub struct DriftMonitor {
    /// By device.
    lives: Vec<Life>,
    holds: bool,
}

impl Model for DriftMonitor {
    ghost use Rattle.sd_monitors.specs.clocks.Drifts.{DriftKept};

    ghost Value = { DriftKept };

    ghost use Rattle.sd_monitors.specs.clocks.DriftView.{drift_kept};

    ghost view = { drift_kept };
}

/// The reading that the event is, with its device.
fn reading_of(event: &Event) -> Option<(u32, Reading)>
    ensures { result ≡ reading_of event.now }
{
    match (event.device(), event.counter()) {
        (Some(device), Some(counter)) => {
            let reference = event.reference();
            Some((device, Reading { reference, counter }))
        }
        _ => None,
    }
}

/// Whether the event begins a life of its device.
fn begins_life(event: &Event) -> bool
    ensures { result ≡ makes_some event.now }
{
    matches!(event, Event::Start { .. } | Event::Join { .. })
}

impl Life {
    /// Sees a reading, which begins a life or goes on with this one, and tells whether it keeps the
    /// rates with each earlier reading of its life.
    #[inline(always)]
    fn read(&mut self, reading: Reading, begins: bool) -> bool
        ensures rates { self.new.rates ≡ self.old.rates }
        ensures offsets { (readings : List (ℕ × ℕ))
            → self.old.offsets ≡ least_offsets self.old.rates.ppm readings
            → self.new.offsets ≡ least_offsets self.old.rates.ppm
            (pair_of reading ∷ (if begins then [] else readings)) }
        ensures keeps { (readings : List (ℕ × ℕ))
            → self.old.offsets ≡ least_offsets self.old.rates.ppm readings
            → IsTrue (is_after_each (if begins then [] else readings) (pair_of reading))
            → result ≡ keeps_rates_with self.old.rates
            (if begins then [] else readings) (pair_of reading) }
    {
        if begins {
            self.offsets = Offsets::of_none();
        }
        let offsets = Offsets::at(self.rates, reading);
        let keeps = self.offsets.allow(self.rates.grain, offsets);
        self.offsets = self.offsets.with_reading(offsets);
        keeps
    }
}

impl DriftMonitor {
    /// A monitor that has seen nothing of the devices of a topology.
    pub fn new(alloc: Global, topo: &Topology) -> Result<DriftMonitor, NoMemory>
        ensures devices { IfOk result
            (λ monitor. length monitor.lives ≡ length (network topo.now).devices) }
        ensures stands { IfOk result
            (λ monitor. (setting : Setting) → setting.net ≡ network topo.now
            → DriftStands setting monitor []) }
    {
        let devices = topo.devices();
        let Ok(mut lives) = Vec::with_capacity(alloc, devices as usize) else {
            return Err(NoMemory);
        };
        for d in 0..devices {
            lives.push_reserved(Life {
                rates: topo.rates(d),
                offsets: Offsets::of_none(),
            });
        }
        Ok(DriftMonitor { lives, holds: true })
    }

    /// How far the counter of a device lay off the reference at least in its present life.
    pub fn offsets(&self, device: u32) -> Offsets
        requires { device < length self.now.lives }
        ensures { (setting : Setting) (seen : List Sight) → DriftStands setting self.now seen
            → result ≡ least_offsets (rates_of setting.net device).ppm (readings seen device) }
    {
        self.lives[device as usize].offsets
    }

    /// Sees one event more, and tells whether the premise holds still.
    pub fn observe(&mut self, seen: &Seen<'_>) -> bool
        requires device { ForSome (device_of seen.now.event) (λ d. d < length self.old.lives) }
        ensures stands { (setting : Setting) (earlier : List Sight)
            → DriftStands setting self.old earlier
            → IsTrue (may_be_seen setting earlier seen.now.event)
            → DriftStands setting self.new (sight_of seen.now ∷ earlier) }
        ensures holds { (setting : Setting) (earlier : List Sight)
            → DriftStands setting self.old earlier
            → IsTrue (may_be_seen setting earlier seen.now.event)
            → result ≡ drift_holds setting (sight_of seen.now ∷ earlier) }
        ensures devices { length self.new.lives ≡ length self.old.lives }
    {
        match reading_of(&seen.event) {
            Some((device, reading)) => {
                let begins = begins_life(&seen.event);
                self.read(device, reading.reference, reading.counter, begins)
            }
            None => self.holds,
        }
    }

    /// Sees a reading of a device, which begins a life or goes on with one, and tells whether the
    /// premise holds still.
    #[inline(always)]
    pub fn read(&mut self, device: u32, reference: u64, counter: u64, begins: bool) -> bool
        requires { device < length self.old.lives }
        ensures stands { (setting : Setting) (earlier : List Sight) (s : Sight)
            → IsReading s.event device reference counter begins
            → DriftStands setting self.old earlier
            → IsTrue (may_be_seen setting earlier s.event)
            → DriftStands setting self.new (s ∷ earlier) }
        ensures holds { (setting : Setting) (earlier : List Sight) (s : Sight)
            → IsReading s.event device reference counter begins
            → DriftStands setting self.old earlier
            → IsTrue (may_be_seen setting earlier s.event)
            → result ≡ drift_holds setting (s ∷ earlier) }
        ensures devices { length self.new.lives ≡ length self.old.lives }
    {
        let reading = Reading { reference, counter };
        let keeps = self.lives[device as usize].read(reading, begins);
        self.holds &= keeps;
        self.holds
    }
}
