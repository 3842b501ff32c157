//! The world of a history in registers: which devices are up, failed or made, what each read last,
//! and how far the change of plans has come. Each event changes them in constant time.
//!
//! The meaning of each register is a word on what was seen (`World`, `Refusals` of the definitions
//! of histories), and `Stands` says that the registers hold just these.
ghost use Rattle.std.specs.Prelude.{◌≡◌, ℕ, ◌||◌, ◌-◌, ◌<◌, ◌^◌, List, [], ◌∷◌, length, true, false, IfSome, IfOk};
ghost use Rattle.sd_sched.specs.Events.{device_of, link_of, is_stage, is_end_event};
ghost use Rattle.sd_sched.specs.declared.Event.TheVariants as events_of;
ghost use Rattle.sd_history.specs.World.{Setting, Seen};
ghost use Rattle.sd_world.specs.world.Registers.{up_at, failed_at, ever_failed_at, made_at, reading_at, joins_at, admits_call, HasThing, HasNamed, devices_after, links_after, first_registers, registers_after, registers_closed};
ghost use Rattle.sd_world.specs.world.Standing.{Stands};

mod device;
mod things;
mod window;

use crate::world::device::DeviceState;
use sd_num::NoMemory;
use sd_plan::topo::Thing;
use sd_sched::Event;
use std::alloc::Global;
use std::marker::Model;
pub use things::{failure_of, link_of, mended, message_of};
pub use window::Window;

/// This many events are accepted at most.
pub const MOST_EVENTS: u64 = 1 << 26;

/// The world of the events that it observed. Only `new` takes memory.
#[derive(Drop)]
pub struct World {
    /// By number.
    devices: Vec<DeviceState>,
    /// Whether each link is failed, by number.
    failed_links: Vec<bool>,
    /// The reference time of the latest event, in ps.
    reference: u64,
    events: u64,
    ended: bool,
    window: Window,
    /// How many windows were opened.
    windows: u64,
    /// The number of the plan in force.
    epoch: u32,
}

impl Model for World {
    ghost use Rattle.sd_world.specs.world.Registers.{Registers};

    ghost Value = { Registers };

    ghost use Rattle.sd_world.specs.world.WorldView.{registers_seen, IsWorld};

    ghost view = { registers_seen };

    ghost invariant = { IsWorld };
}

/// The event changes the device that it names.
fn observe_device(devices: &mut [DeviceState], event: &Event, windows: u64)
    requires { IfSome (device_of event.now) (λ d. d < length devices.old) }
    ensures { devices.new ≡ devices_after event.now windows devices.old }
{
    if let Some(d) = event.device() {
        devices[d as usize].observe(event, windows);
    }
}

/// The event changes the link that it names.
fn observe_link(failed: &mut [bool], event: &Event)
    requires { IfSome (link_of event.now) (λ l. l < length failed.old) }
    ensures { failed.new ≡ links_after event.now failed.old }
{
    match *event {
        Event::FailLink { link, .. } => failed[link as usize] = true,
        Event::MendLink { link, .. } => failed[link as usize] = false,
        _ => {}
    }
}

/// Whether the event stages a plan.
fn stages(event: &Event) -> bool
    ensures { result ≡ is_stage event.now }
{
    matches!(event, Event::Stage { .. })
}

/// Whether the schedule has ended with the event or before.
fn ends(event: &Event, ended: bool) -> bool
    ensures { result ≡ (is_end_event event.now || ended) }
{
    matches!(event, Event::End { .. }) || ended
}

impl World {
    /// The world before any event, of this many devices and links, with the first plan in force.
    pub fn new(alloc: Global, devices: u32, links: u32) -> Result<World, NoMemory>
        ensures registers { IfOk result (λ w. w ≡ first_registers devices links) }
        ensures stands { IfOk result (λ w. (setting : Setting)
            → length setting.net.devices ≡ devices → length setting.net.links ≡ links
            → Stands w setting []) }
    {
        let Ok(devices) = vec![in alloc; DeviceState::untouched(); devices as usize] else {
            return Err(NoMemory);
        };
        let Ok(failed_links) = vec![in alloc; false; links as usize] else {
            return Err(NoMemory);
        };
        Ok(World {
            devices,
            failed_links,
            reference: 0,
            events: 0,
            ended: false,
            window: Window::Closed,
            windows: 0,
            epoch: 1,
        })
    }

    /// Whether the device is up: it was made, and has not failed since.
    pub fn is_up(&self, d: u32) -> bool
        requires { d < length self.now.devices }
        ensures { result ≡ up_at self.now d }
    {
        self.devices[d as usize].up
    }

    /// Whether the thing is failed: it failed, and was not mended since.
    pub fn has_failed(&self, thing: Thing) -> bool
        requires { HasThing self.now thing }
        ensures { result ≡ failed_at self.now thing }
    {
        match thing {
            Thing::Device(d) => self.devices[d as usize].failed,
            Thing::Link(l) => self.failed_links[l as usize],
        }
    }

    /// Whether the device failed before, mended or not.
    pub fn has_ever_failed(&self, d: u32) -> bool
        requires { d < length self.now.devices }
        ensures { result ≡ ever_failed_at self.now d }
    {
        self.devices[d as usize].ever_failed
    }

    /// Whether the device was started or joined before.
    pub fn was_made(&self, d: u32) -> bool
        requires { d < length self.now.devices }
        ensures { result ≡ made_at self.now d }
    {
        self.devices[d as usize].made
    }

    /// The counter that the device read last, in ps, and 0 before it read one.
    pub fn reading(&self, d: u32) -> u64
        requires { d < length self.now.devices }
        ensures { result ≡ reading_at self.now d }
    {
        self.devices[d as usize].reading
    }

    /// Whether the device joined in the open window.
    pub fn joined_in_window(&self, d: u32) -> bool
        requires { d < length self.now.devices }
        ensures { result ≡ joins_at self.now d }
    {
        self.window.is_open() && self.devices[d as usize].joined == self.windows
    }

    /// The reference time of the latest event, in ps, and 0 before the first.
    pub fn reference(&self) -> u64
        ensures { result ≡ self.now.reference }
    {
        self.reference
    }

    /// How many events were observed.
    pub fn events(&self) -> u64
        ensures { result ≡ self.now.events }
    {
        self.events
    }

    /// Whether the schedule has ended.
    pub fn has_ended(&self) -> bool
        ensures { result ≡ self.now.ended }
    {
        self.ended
    }

    /// How far the change to the next plan has come.
    pub fn window(&self) -> Window
        ensures { result ≡ self.now.window }
    {
        self.window
    }

    /// The number of the plan in force, from 1.
    pub fn epoch(&self) -> u32
        ensures { result ≡ self.now.epoch }
    {
        self.epoch
    }

    /// Whether a device may be called at this reference time and this counter: it is there and up,
    /// neither of the two falls, and the schedule goes on.
    #[inline(always)]
    pub fn admits_call(&self, reference: u64, d: u32, counter: u64) -> bool
        ensures { result ≡ admits_call self.now reference d counter }
    {
        if (d as usize) >= self.devices.len() {
            return false;
        }
        let device = &self.devices[d as usize];
        device.up
            && !device.failed
            && device.reading <= counter
            && self.reference <= reference
            && !self.ended
            && self.events < MOST_EVENTS
    }

    /// A tick or a receipt: of the two a world keeps the same.
    #[inline(always)]
    pub fn note_call(&mut self, reference: u64, d: u32, counter: u64)
        requires room { self.old.events < 2 ^ 63 }
        requires range { d < length self.old.devices }
        ensures tick { self.new ≡ registers_after self.old (events_of.Tick reference d counter) }
        ensures receipt { (message : ℕ)
            → self.new ≡ registers_after self.old (events_of.Recv reference d counter message) }
    {
        self.devices[d as usize].reading = counter;
        self.reference = reference;
        self.events += 1;
    }

    /// The next event, with which the window does not close.
    pub fn observe(&mut self, event: &Event)
        requires room { self.old.events < 2 ^ 63 }
        requires named { HasNamed self.old event.now }
        ensures registers { self.new ≡ registers_after self.old event.now }
        // for what they stood for, and the event
        ensures stands { (setting : Setting) (seen : List Seen) (s : Seen)
            → s.event ≡ event.now → s.closed ≡ false
            → Stands self.old setting seen → Stands self.new setting (s ∷ seen) }
    {
        observe_device(&mut self.devices, event, self.windows);
        observe_link(&mut self.failed_links, event);
        self.reference = event.reference();
        self.events += 1;
        self.ended = ends(event, self.ended);
        self.window = self.window.after(event);
        self.windows += stages(event) as u64;
    }

    /// The window closes with the latest event, and the next plan is in force.
    pub fn close(&mut self)
        requires { self.old.epoch < 2 ^ 32 - 1 }
        ensures registers { self.new ≡ registers_closed self.old }
        // for what they stood for, but that the window closed with the latest event
        ensures stands { (setting : Setting) (seen : List Seen) (s : Seen) → s.closed ≡ false
            → Stands self.old setting (s ∷ seen)
            → Stands self.new setting (record s { closed = true } ∷ seen) }
    {
        self.window = Window::Closed;
        self.epoch += 1;
    }
}
