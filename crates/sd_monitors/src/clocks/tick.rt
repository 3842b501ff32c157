//! The premise on ticks: each device that is up and a member of a plan that counts ticks often
//! enough, and each member of the first plan starts soon.
ghost use Rattle.std.specs.Prelude.{◌≡◌, ◌≢◌, ℕ, ◌-◌, ◌^◌, ◌<◌, ◌≤◌, ◌==◌, ◌||◌, ◌&&◌, ◌∷◌, [], List, length, nat_le, slice_index, is_none, IsTrue, IfOk, if◌then◌else◌};
ghost use Rattle.std.specs.List.{list_all};
ghost use Rattle.std.specs.Option.{ForSome};
ghost use Rattle.sd_plan.specs.topo.Topologies.{network};
ghost use Rattle.sd_sched.specs.Events.{device_of, is_stage};
ghost use Rattle.sd_history.specs.World.{Setting, Seen as Sight};
ghost use Rattle.sd_history.specs.Premises.{latest_tick, tick_holds};
ghost use Rattle.sd_history.specs.Open.{may_be_seen};
ghost use Rattle.sd_world.specs.world.Standing.{Stands};
ghost use Rattle.sd_monitors.specs.clocks.Sights.{sight_of};
ghost use Rattle.sd_monitors.specs.clocks.Kinds.{IsTick, IsReceipt};
ghost use Rattle.sd_monitors.specs.clocks.Memberships.{AreMembers};
ghost use Rattle.sd_monitors.specs.clocks.Owing.{is_awaited as is_awaited_seen, owed_at};
ghost use Rattle.sd_monitors.specs.clocks.Tickings.{AreOwed, TickStands, TellOf};

use crate::clocks::queue::Queue;
use crate::clocks::ticks::{NEVER, Ticks};
use crate::clocks::{PresentRows, Seen};
use sd_num::NoMemory;
use sd_plan::topo::Topology;
use sd_sched::Event;
use sd_world::world::World;
use std::alloc::Global;
use std::marker::Model;

/// Whether the premise on ticks has held so far, and since when each device owes a tick.
#[derive(Drop)]
pub struct TickMonitor {
    ticks: Ticks,
    /// By device, the reference since which it owes a tick, and the greatest number where it owes
    /// none. That none is late is so seen, at most events, by one look.
    owed: Queue,
    /// How much reference time may pass from one tick to the next, in ps.
    limit: u64,
    holds: bool,
}

impl Model for TickMonitor {
    ghost use Rattle.sd_monitors.specs.clocks.Tickings.{TickKept};

    ghost Value = { TickKept };

    ghost use Rattle.sd_monitors.specs.clocks.TickView.{tick_kept, IsTickMonitor};

    ghost view = { tick_kept };

    ghost invariant = { IsTickMonitor };
}

/// Whether the event stages a plan.
fn stages(event: &Event) -> bool
    ensures { result ≡ is_stage event.now }
{
    matches!(event, Event::Stage { .. })
}

/// Notes since when a device owes a tick.
fn note(owed: &mut Queue, ticks: &Ticks, members: &PresentRows, world: &World, d: u32)
    requires known { d < length owed.old }
    requires ticks { d < length ticks.now.states }
    requires world { d < length world.now.devices }
    ensures places { length owed.new ≡ length owed.old }
    ensures others { (k : ℕ) → k ≢ d → slice_index owed.new k ≡ slice_index owed.old k }
    ensures here { (setting : Setting) (seen : List Sight)
        → TellOf setting seen members.now world.now ticks.now
        → slice_index owed.new d ≡ owed_at setting seen d }
{
    owed.set(d as usize, ticks.owed(members, world, d));
}

/// Notes it of each device.
fn note_all(owed: &mut Queue, ticks: &Ticks, members: &PresentRows, world: &World)
    requires ticks { length ticks.now.states ≡ length owed.old }
    requires world { length world.now.devices ≡ length owed.old }
    ensures places { length owed.new ≡ length owed.old }
    ensures each { (setting : Setting) (seen : List Sight)
        → TellOf setting seen members.now world.now ticks.now
        → AreOwed setting seen owed.new }
{
    for d in 0..ticks.devices() {
        note(owed, ticks, members, world, d);
    }
}

/// Whether the premise held so far, and no device owes a tick for longer than the limit at the
/// reference. Once it is broken no device is looked at: it stays so.
#[inline(always)]
fn holds_still(held: bool, owed: &mut Queue, limit: u64, reference: u64) -> bool
    ensures answer { result ≡ (held && list_all (nat_le (reference - limit)) owed.old) }
    ensures same { owed.new ≡ owed.old }
{
    held && owed.has_none_below(reference.saturating_sub(limit))
}

/// Notes a tick of a device, which changes since when it owes one, if it owes one.
#[inline(always)]
fn renew(owed: &mut Queue, d: u32, reference: u64)
    requires { d < length owed.old }
    ensures places { length owed.new ≡ length owed.old }
    ensures others { (k : ℕ) → k ≢ d → slice_index owed.new k ≡ slice_index owed.old k }
    ensures here { slice_index owed.new d
        ≡ (if slice_index owed.old d == 2 ^ 64 - 1 then 2 ^ 64 - 1 else reference) }
{
    let place = d as usize;
    if owed.at(place) != NEVER {
        owed.set(place, reference);
    }
}

impl TickMonitor {
    /// A monitor that has seen nothing of the devices of a topology and of the members of plans.
    pub fn new(
        alloc: Global,
        topo: &Topology,
        members: &PresentRows,
    ) -> Result<TickMonitor, NoMemory>
        ensures devices { IfOk result
            (λ monitor. length monitor.owed ≡ length (network topo.now).devices) }
        ensures stands { IfOk result
            (λ monitor. (setting : Setting) → setting.net ≡ network topo.now
            → AreMembers setting members.now → TickStands setting monitor []) }
    {
        let devices = topo.devices();
        let ticks = Ticks::new(alloc, members, devices)?;
        let owed = Queue::new(alloc, devices, u64::MAX)?;
        Ok(TickMonitor {
            ticks,
            owed,
            limit: topo.params().tick,
            holds: true,
        })
    }

    /// The reference of the latest tick, start or join of a device, in ps, and 0 before the first.
    pub fn latest(&self, device: u32) -> u64
        requires { device < length self.now.owed }
        ensures { (setting : Setting) (seen : List Sight) → TickStands setting self.now seen
            → result ≡ latest_tick seen device }
    {
        self.ticks.latest(device)
    }

    /// Whether a device is a member of the first plan that was neither started, joined nor failed.
    pub fn is_awaited(&self, device: u32) -> bool
        requires { device < length self.now.owed }
        ensures { (setting : Setting) (seen : List Sight) → TickStands setting self.now seen
            → result ≡ is_awaited_seen setting seen device }
    {
        self.ticks.is_awaited(device)
    }

    /// Sees one event more, of which the world knows already, and tells whether the premise holds
    /// still.
    pub fn observe(&mut self, members: &PresentRows, after: &World, seen: &Seen<'_>) -> bool
        requires device { ForSome (device_of seen.now.event) (λ d. d < length self.old.owed) }
        requires world { length after.now.devices ≡ length self.old.owed }
        ensures stands { (setting : Setting) (earlier : List Sight) → AreMembers setting members.now
            → Stands after.now setting (sight_of seen.now ∷ earlier)
            → TickStands setting self.old earlier
            → TickStands setting self.new (sight_of seen.now ∷ earlier) }
        ensures holds { (setting : Setting) (earlier : List Sight) → AreMembers setting members.now
            → Stands after.now setting (sight_of seen.now ∷ earlier)
            → TickStands setting self.old earlier
            → result ≡ tick_holds setting (sight_of seen.now ∷ earlier) }
        ensures devices { length self.new.owed ≡ length self.old.owed }
    {
        let reference = seen.event.reference();
        self.holds = holds_still(self.holds, &mut self.owed, self.limit, reference);
        let all = self.is_changed_for_all(seen);
        self.ticks.observe(&seen.event);
        if all {
            note_all(&mut self.owed, &self.ticks, members, after);
        } else if let Some(d) = seen.event.device() {
            note(&mut self.owed, &self.ticks, members, after, d);
        }
        self.holds
    }

    /// Sees a tick of a device, and tells whether the premise holds still.
    #[inline(always)]
    pub fn tick(&mut self, device: u32, reference: u64) -> bool
        requires { device < length self.old.owed }
        ensures stands { (setting : Setting) (earlier : List Sight) (s : Sight) (counter : ℕ)
            → IsTick s reference device counter
            → IsTrue (may_be_seen setting earlier s.event)
            → latest_tick earlier device ≤ reference
            → TickStands setting self.old earlier
            → TickStands setting self.new (s ∷ earlier) }
        ensures holds { (setting : Setting) (earlier : List Sight) (s : Sight) (counter : ℕ)
            → IsTick s reference device counter
            → IsTrue (may_be_seen setting earlier s.event)
            → latest_tick earlier device ≤ reference
            → TickStands setting self.old earlier
            → result ≡ tick_holds setting (s ∷ earlier) }
        ensures devices { length self.new.owed ≡ length self.old.owed }
    {
        self.holds = holds_still(self.holds, &mut self.owed, self.limit, reference);
        self.ticks.tick(device, reference);
        renew(&mut self.owed, device, reference);
        self.holds
    }

    /// Sees a receipt, which changes of no device since when it owes a tick, and tells whether the
    /// premise holds still.
    #[inline(always)]
    pub fn receive(&mut self, reference: u64) -> bool
        ensures stands { (setting : Setting) (earlier : List Sight) (s : Sight)
            (device counter message : ℕ)
            → IsReceipt s reference device counter message
            → IsTrue (may_be_seen setting earlier s.event)
            → TickStands setting self.old earlier
            → TickStands setting self.new (s ∷ earlier) }
        ensures holds { (setting : Setting) (earlier : List Sight) (s : Sight)
            (device counter message : ℕ)
            → IsReceipt s reference device counter message
            → IsTrue (may_be_seen setting earlier s.event)
            → TickStands setting self.old earlier
            → result ≡ tick_holds setting (s ∷ earlier) }
        ensures devices { length self.new.owed ≡ length self.old.owed }
    {
        self.holds = holds_still(self.holds, &mut self.owed, self.limit, reference);
        self.holds
    }

    /// Whether the event can change of many devices at once since when they owe a tick: it is the
    /// first one, stages a plan or closes a window.
    fn is_changed_for_all(&self, seen: &Seen<'_>) -> bool
        ensures { result
            ≡ (is_none self.now.ticks.first || seen.now.closed || is_stage seen.now.event) }
    {
        self.ticks.is_new() || seen.closed || stages(&seen.event)
    }
}
