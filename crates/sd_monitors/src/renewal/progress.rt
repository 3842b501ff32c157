//! How far the open window has come.
ghost use Rattle.std.specs.Prelude.{◌≡◌, ℕ, ◌<◌, ◌^◌, ◌∷◌, [], List, length, IfSome, IfOk};
ghost use Rattle.std.specs.List.{list_any};
ghost use Rattle.sd_sched.specs.Events.{device_of, is_stage, is_seal};
ghost use Rattle.sd_history.specs.Premises.{has_mend, has_seal, was_given};
ghost use Rattle.sd_history.specs.World.{Setting, Seen as Sight, has_entered};
ghost use Rattle.sd_world.specs.world.Standing.{Stands};
ghost use Rattle.sd_monitors.specs.clocks.Sights.{sight_of};
ghost use Rattle.sd_monitors.specs.renewal.Progressing.{HasDevices, given_after, made_after, entered_after, progress_within, progress_after, ProgressStands};

use crate::clocks::Seen;
use crate::renewal::Mark;
use sd_num::NoMemory;
use sd_sched::Event;
use sd_world::world::{World, mended};
use std::alloc::Global;
use std::marker::Model;

/// What came about in the open window, as far as a renewal has to be in order. Only `new` takes
/// memory.
#[derive(Drop)]
pub struct Progress {
    /// How many windows were opened.
    windows: u64,
    /// Whether something is mended in the open one.
    mended: Mark,
    /// Whether some device is sealed in it.
    sealed: Mark,
    /// By device, whether it was given its duty of the staged plan, since its latest join.
    given: Vec<Mark>,
    /// By device, whether it has entered the staged plan, since it was made.
    entered: Vec<Mark>,
}

impl Model for Progress {
    ghost use Rattle.sd_monitors.specs.renewal.Progressing.{ProgressKept};

    ghost Value = { ProgressKept };

    ghost use Rattle.sd_monitors.specs.renewal.ProgressView.{progress_kept};

    ghost view = { progress_kept };
}

/// Whether the event opens a window.
fn stages(event: &Event) -> bool
    ensures { result ≡ is_stage event.now }
{
    matches!(event, Event::Stage { .. })
}

/// Whether the event seals a device.
fn seals(event: &Event) -> bool
    ensures { result ≡ is_seal event.now }
{
    matches!(event, Event::Seal { .. })
}

/// Notes that a device is given its duty, or joins and has to be given it again.
fn note_given(given: &mut [Mark], event: &Event, windows: u64)
    requires { IfSome (device_of event.now) (λ d. d < length given.old) }
    ensures { given.new ≡ given_after event.now windows given.old }
{
    match *event {
        Event::Give { device, .. } => given[device as usize] = Mark::of_window(windows),
        Event::Join { device, .. } => given[device as usize] = Mark::none(),
        _ => {}
    }
}

/// Notes that a device is made, which has entered nothing.
fn note_made(entered: &mut [Mark], event: &Event)
    requires { IfSome (device_of event.now) (λ d. d < length entered.old) }
    ensures { entered.new ≡ made_after event.now entered.old }
{
    match *event {
        Event::Start { device, .. } | Event::Join { device, .. } => {
            entered[device as usize] = Mark::none();
        }
        _ => {}
    }
}

/// Notes that a device is made or enters the staged plan.
fn note_entered(entered: &mut [Mark], seen: &Seen<'_>, windows: u64)
    requires named { IfSome (device_of seen.now.event) (λ d. d < length entered.old) }
    requires activated { IfSome seen.now.activated (λ d. d < length entered.old) }
    ensures { entered.new ≡ entered_after (sight_of seen.now) windows entered.old }
{
    note_made(entered, &seen.event);
    if let Some(d) = seen.activated {
        entered[d as usize] = Mark::of_window(windows);
    }
}

impl Progress {
    /// Before any event, of this many devices.
    pub fn new(alloc: Global, devices: u32) -> Result<Progress, NoMemory>
        ensures devices { IfOk result (HasDevices devices) }
        ensures stands { IfOk result (λ progress. ProgressStands progress []) }
    {
        let Ok(given) = vec![in alloc; Mark::none(); devices as usize] else {
            return Err(NoMemory);
        };
        let Ok(entered) = vec![in alloc; Mark::none(); devices as usize] else {
            return Err(NoMemory);
        };
        Ok(Progress {
            windows: 0,
            mended: Mark::none(),
            sealed: Mark::none(),
            given,
            entered,
        })
    }

    /// The next event.
    pub fn observe(&mut self, seen: &Seen<'_>)
        requires few { self.old.windows < 2 ^ 63 }
        requires given { IfSome (device_of seen.now.event) (λ d. d < length self.old.given) }
        requires entered { IfSome (device_of seen.now.event) (λ d. d < length self.old.entered) }
        requires activated { IfSome seen.now.activated (λ d. d < length self.old.entered) }
        ensures kept { self.new ≡ progress_after (sight_of seen.now) self.old }
        ensures stands { (earlier : List Sight) → ProgressStands self.old earlier
            → ProgressStands self.new (sight_of seen.now ∷ earlier) }
    {
        if stages(&seen.event) {
            self.windows += 1;
        } else {
            self.note(seen);
        }
    }

    /// An event that opens no window.
    fn note(&mut self, seen: &Seen<'_>)
        requires given { IfSome (device_of seen.now.event) (λ d. d < length self.old.given) }
        requires entered { IfSome (device_of seen.now.event) (λ d. d < length self.old.entered) }
        requires activated { IfSome seen.now.activated (λ d. d < length self.old.entered) }
        ensures { self.new ≡ progress_within (sight_of seen.now) self.old }
    {
        if mended(&seen.event).is_some() {
            self.mended = Mark::of_window(self.windows);
        }
        if seals(&seen.event) {
            self.sealed = Mark::of_window(self.windows);
        }
        note_given(&mut self.given, &seen.event, self.windows);
        note_entered(&mut self.entered, seen, self.windows);
    }

    /// Whether some window was opened so far.
    pub fn has_begun(&self) -> bool
        ensures { (seen : List Sight) → ProgressStands self.now seen
            → result ≡ list_any (λ s. is_stage s.event) seen }
    {
        self.windows > 0
    }

    /// Whether something is mended in the open window of the world.
    pub fn has_mend(&self, world: &World) -> bool
        ensures { (setting : Setting) (seen : List Sight) → Stands world.now setting seen
            → ProgressStands self.now seen
            → result ≡ has_mend seen }
    {
        self.mended.holds(world.window().is_open(), self.windows)
    }

    /// Whether some device is sealed in the open window of the world.
    pub fn has_seal(&self, world: &World) -> bool
        ensures { (setting : Setting) (seen : List Sight) → Stands world.now setting seen
            → ProgressStands self.now seen
            → result ≡ has_seal seen }
    {
        self.sealed.holds(world.window().is_open(), self.windows)
    }

    /// Whether the device was given its duty in the open window of the world, since its latest
    /// join.
    pub fn was_given(&self, world: &World, d: u32) -> bool
        requires { d < length self.now.given }
        ensures { (setting : Setting) (seen : List Sight) → Stands world.now setting seen
            → ProgressStands self.now seen
            → result ≡ was_given seen d }
    {
        self.given[d as usize].holds(world.window().is_open(), self.windows)
    }

    /// Whether the device has entered the staged plan, since it was made.
    pub fn has_entered(&self, world: &World, d: u32) -> bool
        requires { d < length self.now.entered }
        ensures { (setting : Setting) (seen : List Sight) → Stands world.now setting seen
            → ProgressStands self.now seen
            → result ≡ has_entered seen d }
    {
        self.entered[d as usize].holds(world.window().is_open(), self.windows)
    }
}
