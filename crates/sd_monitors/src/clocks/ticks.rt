//! When each device ticked last, and since when each owes a tick.
ghost use Rattle.std.specs.Prelude.{◌≡◌, ℕ, ◌<◌, ◌∷◌, [], List, length, is_none, slice_index_or, IfOk};
ghost use Rattle.std.specs.Option.{ForSome};
ghost use Rattle.sd_sched.specs.Events.{device_of};
ghost use Rattle.sd_plan.specs.topo.Topologies.{network};
ghost use Rattle.sd_history.specs.World.{Setting, Seen as Sight};
ghost use Rattle.sd_history.specs.Premises.{is_current_member};
ghost use Rattle.sd_world.specs.world.Standing.{Stands};
ghost use Rattle.sd_monitors.specs.clocks.Memberships.{AreMembers};
ghost use Rattle.sd_monitors.specs.clocks.Owing.{no_state, state_after, ticks_after, ticked_at, owed_at, TicksStand};

use crate::clocks::PresentRows;
use sd_num::NoMemory;
use sd_sched::Event;
use sd_world::world::World;
use std::alloc::Global;
use std::marker::Model;

/// Stands for the reference of a device that owes no tick: no event comes later.
pub const NEVER: u64 = u64::MAX;

/// What is kept of one device.
#[derive(Clone, Copy)]
pub struct TickState {
    /// The reference of its latest tick, start or join, in ps, and 0 before the first.
    latest: u64,
    /// Whether it is a member of the first plan that was neither started, joined nor failed.
    awaited: bool,
}

impl TickState {
    /// An event that names the device.
    fn observe(&mut self, event: &Event)
        ensures { self.new ≡ state_after event.now self.old }
    {
        match *event {
            Event::Tick { reference, .. } => self.latest = reference,
            Event::Start { reference, .. } | Event::Join { reference, .. } => {
                self.latest = reference;
                self.awaited = false;
            }
            Event::FailDevice { .. } => self.awaited = false,
            _ => {}
        }
    }
}

/// The latest ticks of all devices.
#[derive(Drop)]
pub struct Ticks {
    /// By device.
    states: Vec<TickState>,
    /// The reference of the first event, in ps.
    first: Option<u64>,
}

impl Model for Ticks {
    ghost use Rattle.sd_monitors.specs.clocks.Owing.{TicksKept};

    ghost Value = { TicksKept };

    ghost use Rattle.sd_monitors.specs.clocks.TicksView.{ticks_kept, AreTicks};

    ghost view = { ticks_kept };

    ghost invariant = { AreTicks };
}

/// Whether the device is a member of the plan in force or of the staged one.
fn is_current(members: &PresentRows, world: &World, d: u32) -> bool
    ensures { (setting : Setting) (seen : List Sight) → AreMembers setting members.now
        → Stands world.now setting seen
        → d < length setting.net.devices → result ≡ is_current_member setting seen d }
{
    let epoch = u64::from(world.epoch());
    members.is_member(epoch, d) || (world.window().is_open() && members.is_member(epoch + 1, d))
}

impl Ticks {
    /// Before any event, the members of the first plan are awaited.
    pub fn new(alloc: Global, members: &PresentRows, devices: u32) -> Result<Ticks, NoMemory>
        ensures devices { IfOk result (λ ticks. length ticks.states ≡ devices) }
        ensures stands { IfOk result (λ ticks. (setting : Setting)
            → length setting.net.devices ≡ devices → AreMembers setting members.now
            → TicksStand setting ticks []) }
    {
        let Ok(mut states) = Vec::with_capacity(alloc, devices as usize) else {
            return Err(NoMemory);
        };
        for d in 0..devices {
            let awaited = members.is_member(1, d);
            states.push_reserved(TickState { latest: 0, awaited });
        }
        Ok(Ticks {
            states,
            first: None,
        })
    }

    /// How many devices there are.
    pub fn devices(&self) -> u32
        ensures { result ≡ length self.now.states }
    {
        self.states.len() as u32
    }

    /// The reference of the latest tick, start or join of a device, in ps, and 0 before the first.
    pub fn latest(&self, d: u32) -> u64
        requires { d < length self.now.states }
        ensures { result ≡ (slice_index_or self.now.states d no_state).latest }
    {
        self.states[d as usize].latest
    }

    /// Whether a device is a member of the first plan that was neither started, joined nor failed.
    pub fn is_awaited(&self, d: u32) -> bool
        requires { d < length self.now.states }
        ensures { result ≡ (slice_index_or self.now.states d no_state).awaited }
    {
        self.states[d as usize].awaited
    }

    /// Whether there was no event yet.
    pub fn is_new(&self) -> bool
        ensures { result ≡ is_none self.now.first }
    {
        self.first.is_none()
    }

    /// The next event.
    pub fn observe(&mut self, event: &Event)
        requires { ForSome (device_of event.now) (λ d. d < length self.old.states) }
        ensures { self.new ≡ ticks_after event.now self.old }
    {
        if let Some(d) = event.device() {
            self.states[d as usize].observe(event);
        }
        self.first = Some(self.first.unwrap_or(event.reference()));
    }

    /// The device ticks, and the event is not the first.
    pub fn tick(&mut self, d: u32, reference: u64)
        requires { d < length self.old.states }
        ensures { self.new ≡ record self.old { states = ticked_at self.old.states d reference } }
    {
        self.states[d as usize].latest = reference;
    }

    /// The reference since which a device owes a tick, in ps, and the greatest number where it
    /// owes none.
    pub fn owed(&self, members: &PresentRows, world: &World, d: u32) -> u64
        requires known { d < length self.now.states }
        requires world { d < length world.now.devices }
        ensures { (setting : Setting) (seen : List Sight) → AreMembers setting members.now
            → Stands world.now setting seen
            → TicksStand setting self.now seen → result ≡ owed_at setting seen d }
    {
        let state = self.states[d as usize];
        if world.is_up(d) && is_current(members, world, d) {
            state.latest
        } else if state.awaited {
            self.first.unwrap_or(NEVER)
        } else {
            NEVER
        }
    }
}
