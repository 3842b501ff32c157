//! All seven premises over one world.
ghost use Rattle.std.specs.Prelude.{◌≡◌, true, ◌+◌, ◌-◌, ◌<◌, ◌≤◌, ◌^◌, ◌∷◌, [], List, length, OnOk, IfOk};
ghost use Rattle.sd_plan.specs.topo.Topologies.{network};
ghost use Rattle.sd_plan.specs.domain.Failing.{HasRoomFor};
ghost use Rattle.sd_history.specs.Premises.{breaks, broken_in};
ghost use Rattle.sd_history.specs.World.{Setting, Seen as Sight};
ghost use Rattle.sd_world.specs.membership.Plans.{AreSound};
ghost use Rattle.sd_world.specs.world.Registers.{HasNamed};
ghost use Rattle.sd_world.specs.world.Standing.{Stands};
ghost use Rattle.sd_monitors.specs.clocks.Sights.{sight_of};
ghost use Rattle.sd_monitors.specs.loss.rounds.Loss.{number_taken};
ghost use Rattle.sd_monitors.specs.renewal.Progressing.{HasDevices};
ghost use Rattle.sd_premise.specs.Order.{CanFollow};
ghost use Rattle.sd_premise.specs.Worlds.{world_after};

use crate::inputs::MonitorInputs;
use crate::monitors::Monitors;
use crate::sets::{Held, NONE_BROKEN, break_now, note_held};
use sd_device::msg::Flight;
use sd_history::BrokenSet;
use sd_monitors::clocks::{
    DelayMonitor, DriftMonitor, PresentRows, Seen, StartMonitor, TickMonitor,
};
use sd_monitors::loss::rounds::Rounds;
use sd_monitors::renewal::{DomainMonitor, Moment, RenewalMonitor};
use sd_num::NoMemory;
use sd_plan::Plan;
use sd_plan::topo::Topology;
use sd_world::world::{World, failure_of};
use std::alloc::Global;

/// Judges the seven premises event by event. It keeps what later events can ask for: the world in
/// registers, and a monitor of each premise.
#[derive(Drop)]
pub struct Premises {
    topology: Topology,
    members: PresentRows,
    links: PresentRows,
    world: World,
    start: StartMonitor,
    drift: DriftMonitor,
    delay: DelayMonitor,
    tick: TickMonitor,
    loss: Rounds,
    domain: DomainMonitor,
    renew: RenewalMonitor,
    /// Which premises are broken so far.
    broken: BrokenSet,
    ghost world_devices: { length world.devices ≡ length (network topology).devices },
    ghost world_links: { length world.failed_links ≡ length (network topology).links },
    ghost drift_devices: { length drift.lives ≡ length (network topology).devices },
    ghost tick_devices: { length tick.owed ≡ length (network topology).devices },
    ghost domain_room: { HasRoomFor (network topology) domain.failed },
    ghost renew_devices: { HasDevices (length (network topology).devices) renew.progress },
    ghost renew_windows: { renew.progress.windows ≤ world.events },
}

/// The number of the flight that the event received.
fn number_taken(seen: &Seen<'_>) -> Option<u64>
    ensures { result ≡ number_taken (sight_of seen.now) }
{
    match &seen.taken {
        Some(flight) => Some(flight.number),
        None => None,
    }
}

/// The world after one event more, with which the window may close.
fn observe_world(world: &mut World, seen: &Seen<'_>)
    requires named { HasNamed world.old seen.now.event }
    requires events { world.old.events < 2 ^ 26 }
    requires epoch { seen.now.closed ≡ true → world.old.epoch < 2 ^ 32 - 1 }
    ensures registers { world.new ≡ world_after world.old (sight_of seen.now) }
    ensures stands { (setting : Setting) (earlier : List Sight) → Stands world.old setting earlier
        → Stands world.new setting (sight_of seen.now ∷ earlier) }
{
    world.observe(&seen.event);
    if seen.closed {
        world.close();
    }
}

impl Premises {
    ghost use Rattle.sd_premise.specs.Standing.{StandsFor, CanObserve, room_of, net_of};
    ghost use Rattle.sd_premise.specs.Calm.{IsCalmTick, IsCalmReceipt, Sees};

    /// The monitors before any event, over plans of which the first is in force.
    pub fn new(alloc: Global, topo: &Topology, plans: &[Plan]) -> Result<Premises, NoMemory>
        requires some { 1 ≤ length plans.now }
        requires count { length plans.now < 2 ^ 32 }
        requires sound { AreSound (network topo.now) plans.now }
        ensures network { IfOk result (λ premises. net_of premises ≡ network topo.now) }
        ensures stands { IfOk result (λ premises. (setting : Setting)
            → setting.net ≡ network topo.now → setting.plans ≡ plans.now
            → StandsFor premises setting []) }
    {
        let inputs = MonitorInputs::new(alloc, topo, plans)?;
        let monitors = Monitors::new(alloc, topo, &inputs.members)?;
        Ok(Premises {
            topology: inputs.topology,
            members: inputs.members,
            links: inputs.links,
            world: inputs.world,
            start: StartMonitor::new(),
            drift: monitors.drift,
            delay: DelayMonitor::new(),
            tick: monitors.tick,
            loss: monitors.loss,
            domain: monitors.domain,
            renew: monitors.renew,
            broken: NONE_BROKEN,
        })
    }

    /// Makes room for an event that sends this many flights that reach.
    pub fn ready(&mut self, alloc: Global, sent: usize) -> Result<(), NoMemory>
        ensures room { OnOk result (sent ≤ room_of self.new) }
        ensures grows { room_of self.old ≤ room_of self.new }
        ensures world { self.new.world ≡ self.old.world }
        ensures network { net_of self.new ≡ net_of self.old }
        ensures stands { (setting : Setting) (seen : List Sight) → StandsFor self.old setting seen
            → StandsFor self.new setting seen }
    {
        self.loss.ready(alloc, sent)
    }

    /// Sees one event more, and answers which premises break with it: each that held of the events
    /// before and does not hold with this one. It takes no memory. Of nearly all ticks and receipts
    /// `tick` and `receive` answer the same for less.
    pub fn observe(&mut self, seen: &Seen<'_>) -> BrokenSet
        requires { CanObserve self.old (sight_of seen.now) }
        ensures stands { (setting : Setting) (earlier : List Sight)
            → CanFollow setting earlier (sight_of seen.now)
            → StandsFor self.old setting earlier
            → StandsFor self.new setting (sight_of seen.now ∷ earlier) }
        ensures breaks { (setting : Setting) (earlier : List Sight)
            → CanFollow setting earlier (sight_of seen.now)
            → StandsFor self.old setting earlier
            → result ≡ breaks setting (sight_of seen.now ∷ earlier) }
        ensures room { room_of self.old ≤ room_of self.new + length seen.now.sent.now }
        ensures world { self.new.world ≡ world_after self.old.world (sight_of seen.now) }
        ensures network { net_of self.new ≡ net_of self.old }
    {
        let before = Moment {
            topo: &self.topology,
            members: &self.members,
            links: &self.links,
            world: &self.world,
        };
        let renew = self.renew.observe(before, seen);
        observe_world(&mut self.world, seen);
        let now = BrokenSet {
            start: !self.start.observe(seen),
            drift: !self.drift.observe(seen),
            delay: !self.delay.observe(&self.topology, seen),
            tick: !self.tick.observe(&self.members, &self.world, seen),
            loss: !self.loss.see(
                seen.event.reference(),
                failure_of(&seen.event),
                number_taken(seen),
                seen.sent,
            ),
            domain: !self.domain.observe(&self.topology, seen),
            renew: !renew,
        };
        break_now(&mut self.broken, now)
    }

    /// As `observe`, of a tick that receives nothing, with which no window closes and no device
    /// enters the staged plan. Mostly no premise breaks; those on drift, ticks and loss can.
    #[inline(always)]
    pub fn tick(&mut self, reference: u64, device: u32, counter: u64, sent: &[Flight]) -> BrokenSet
        requires room { length sent.now ≤ room_of self.old }
        requires device { device < length self.old.world.devices }
        requires events { self.old.world.events < 2 ^ 26 }
        ensures { Sees (λ s. IsCalmTick s reference device counter sent.now) (length sent.now)
            self.old self.new result }
    {
        self.world.note_call(reference, device, counter);
        let held = Held {
            drift: self.drift.read(device, reference, counter, false),
            delay: !self.broken.delay,
            tick: self.tick.tick(device, reference),
            loss: self.loss.see(reference, None, None, sent),
        };
        note_held(&mut self.broken, held)
    }

    /// As `observe`, of a receipt of this flight, with which no window closes and no device enters
    /// the staged plan. Mostly no premise breaks; those on drift, delays, ticks and loss can.
    #[inline(always)]
    pub fn receive(
        &mut self,
        reference: u64,
        device: u32,
        counter: u64,
        flight: &Flight,
        sent: &[Flight],
    ) -> BrokenSet
        requires room { length sent.now ≤ room_of self.old }
        requires device { device < length self.old.world.devices }
        requires link { flight.now.link < length (net_of self.old).links }
        requires events { self.old.world.events < 2 ^ 26 }
        ensures { Sees (λ s. IsCalmReceipt s reference device counter flight.now sent.now)
            (length sent.now) self.old self.new result }
    {
        self.world.note_call(reference, device, counter);
        let held = Held {
            drift: self.drift.read(device, reference, counter, false),
            delay: self.delay.read(&self.topology, reference, flight),
            tick: self.tick.receive(reference),
            loss: self.loss.see(reference, None, Some(flight.number), sent),
        };
        note_held(&mut self.broken, held)
    }

    /// The topology of the devices and links.
    pub fn topology(&self) -> &Topology
        ensures { result.now ≡ self.now.topology }
    {
        &self.topology
    }

    /// The world in which events were seen.
    pub fn world(&self) -> &World
        ensures { result.now ≡ self.now.world }
    {
        &self.world
    }

    /// The readings of devices.
    pub fn drift(&self) -> &DriftMonitor
        ensures { result.now ≡ self.now.drift }
    {
        &self.drift
    }

    /// The ticks of devices.
    pub fn ticks(&self) -> &TickMonitor
        ensures { result.now ≡ self.now.tick }
    {
        &self.tick
    }

    /// What failed.
    pub fn failures(&self) -> &DomainMonitor
        ensures { result.now ≡ self.now.domain }
    {
        &self.domain
    }

    /// Which premises are broken so far.
    pub fn broken(&self) -> BrokenSet
        ensures { (setting : Setting) (seen : List Sight) → StandsFor self.now setting seen
            → result ≡ broken_in setting seen }
    {
        self.broken
    }
}
