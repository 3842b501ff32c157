//! The causes for which an event is refused, each by itself.
ghost use Rattle.std.specs.Prelude.{◌≡◌, ◌<◌, ◌^◌, ◌&&◌, ◌||◌, not, nat_eq, nat_le, nat_lt, length, true, false, is_some, IfSome};
ghost use Rattle.sd_num.specs.Lists.{map_or};
ghost use Rattle.sd_plan.specs.declared.topo.Thing.TheVariants as thing;
ghost use Rattle.sd_sched.specs.Events.{reference_of, device_of, counter_of, link_of, started, joined, given, is_stage, is_commit, is_seal};
ghost use Rattle.sd_history.specs.Things as things;
ghost use Rattle.sd_history.specs.Refusals as refusals;
ghost use Rattle.sd_world.specs.world.Registers.{up_at, failed_at, made_at, reading_at, is_open, is_committed};
ghost use Rattle.sd_world.specs.membership.Plans.{root_numbered};
ghost use Rattle.sd_world.specs.membership.Memberships.{is_of, holds_given, is_in_force, is_in_staged, is_counted_at, staged_number};
ghost use Rattle.sd_fleet.specs.Causes.{past_preparing_in, is_out_of_order};

use crate::Fabric;
use crate::events::makes_some;
use sd_plan::topo::Thing;
use sd_sched::Event;
use sd_world::world::{MOST_EVENTS, Window, failure_of, link_of, mended};

/// What an event names.
impl Fabric {
    pub(crate) fn names_unknown_device(&self, event: &Event) -> bool
        ensures { result ≡ map_or (device_of event.now) false
            (λ d. nat_le (length self.now.net.devices) d) }
    {
        match event.device() {
            Some(d) => d >= self.topology.devices(),
            None => false,
        }
    }

    pub(crate) fn names_unknown_link(&self, event: &Event) -> bool
        ensures { result ≡ map_or (link_of event.now) false
            (λ l. nat_le (length self.now.net.links) l) }
    {
        match link_of(event) {
            Some(l) => l >= self.topology.links(),
            None => false,
        }
    }

    pub(crate) fn names_dead_device(&self, event: &Event) -> bool
        requires { IfSome (device_of event.now) (λ d. d < length self.now.net.devices) }
        ensures { result
            ≡ (not (is_some (things.mended event.now))
            && map_or (device_of event.now) false
            (λ d. failed_at self.now.membership.world (thing.Device d))) }
    {
        if mended(event).is_some() {
            return false;
        }
        match event.device() {
            Some(d) => self.membership.world().has_failed(Thing::Device(d)),
            None => false,
        }
    }

    pub(crate) fn names_dead_link(&self, event: &Event) -> bool
        requires { IfSome (link_of event.now) (λ l. l < length self.now.net.links) }
        ensures { result
            ≡ (not (is_some (things.mended event.now))
            && map_or (link_of event.now) false
            (λ l. failed_at self.now.membership.world (thing.Link l))) }
    {
        if mended(event).is_some() {
            return false;
        }
        match link_of(event) {
            Some(l) => self.membership.world().has_failed(Thing::Link(l)),
            None => false,
        }
    }
}

/// What an event finds of its device.
impl Fabric {
    pub(crate) fn time_falls(&self, event: &Event) -> bool
        ensures { result ≡ nat_lt (reference_of event.now) self.now.membership.world.reference }
    {
        event.reference() < self.membership.world().reference()
    }

    pub(crate) fn counter_falls(&self, event: &Event) -> bool
        requires { IfSome (device_of event.now) (λ d. d < length self.now.net.devices) }
        ensures { result ≡ (not (refusals.makes_some event.now)
            && map_or (device_of event.now) false
            (λ d. map_or (counter_of event.now) false
            (λ c. nat_lt c (reading_at self.now.membership.world d)))) }
    {
        if makes_some(event) {
            return false;
        }
        let Some(d) = event.device() else {
            return false;
        };
        match event.counter() {
            Some(counter) => counter < self.membership.world().reading(d),
            None => false,
        }
    }

    pub(crate) fn is_not_started(&self, event: &Event) -> bool
        requires { IfSome (device_of event.now) (λ d. d < length self.now.net.devices) }
        ensures { result
            ≡ (not (refusals.makes_some event.now || is_some (things.failure_of event.now)
            || is_some (things.mended event.now))
            && map_or (device_of event.now) false (λ d. not (up_at self.now.membership.world d))) }
    {
        if makes_some(event) || failure_of(event).is_some() || mended(event).is_some() {
            return false;
        }
        match event.device() {
            Some(d) => !self.membership.world().is_up(d),
            None => false,
        }
    }

    pub(crate) fn starts_twice(&self, event: &Event) -> bool
        requires { IfSome (device_of event.now) (λ d. d < length self.now.net.devices) }
        ensures { result
            ≡ (map_or (started event.now) false (made_at self.now.membership.world)
            || map_or (joined event.now) false (is_counted_at self.now.membership)) }
    {
        match *event {
            Event::Start { device, .. } => self.membership.world().was_made(device),
            Event::Join { device, .. } => self.membership.is_counted(device),
            _ => false,
        }
    }
}

/// What an event finds of the window.
impl Fabric {
    pub(crate) fn lacks_plan(&self, event: &Event) -> bool
        ensures { result
            ≡ (is_stage event.now && not (is_open self.now.membership.world.window)
            && nat_le (length self.now.membership.plans) self.now.membership.world.epoch) }
    {
        match *event {
            Event::Stage { .. } => {
                !self.membership.world().window().is_open()
                    && self.membership.world().epoch() >= self.membership.plans()
            }
            _ => false,
        }
    }

    pub(crate) fn is_out_of_order(&self, event: &Event) -> bool
        requires { IfSome (device_of event.now) (λ d. d < length self.now.net.devices) }
        ensures { result ≡ is_out_of_order self.now event.now }
    {
        match *event {
            Event::Stage { .. } => self.membership.world().window().is_open(),
            Event::Give { .. }
            | Event::Join { .. }
            | Event::MendDevice { .. }
            | Event::MendLink { .. } => self.is_past_preparing(),
            Event::Commit { device, .. } => self.is_past_preparing() || !self.may_commit(device),
            Event::Seal { device, .. } => !self.may_seal(device),
            _ => false,
        }
    }

    /// No window is open, or it has its commit.
    fn is_past_preparing(&self) -> bool
        ensures past { result ≡ past_preparing_in self.now }
        ensures staged { result ≡ false → is_open self.now.membership.world.window ≡ true }
    {
        self.membership.world().window() != Window::Preparing
    }

    /// Whether the device is the root of the staged plan, and holds its duty of that plan as given.
    fn may_commit(&self, d: u32) -> bool
        requires range { d < length self.now.net.devices }
        requires staged { is_open self.now.membership.world.window ≡ true }
        ensures { result
            ≡ (nat_eq (root_numbered self.now.membership.plans (staged_number self.now.membership))
            d
            && holds_given self.now.membership (staged_number self.now.membership) d) }
    {
        let staged = self.membership.world().epoch() + 1;
        self.membership.root(staged) == d && self.holds_given(staged, d)
    }

    /// Whether the device holds the duty of the plan with this number as given.
    fn holds_given(&self, epoch: u32, d: u32) -> bool
        requires range { d < length self.now.net.devices }
        ensures { result ≡ holds_given self.now.membership epoch d }
    {
        match self.membership.answered(d) {
            Some(answered) => answered.given == Some(epoch),
            None => false,
        }
    }

    /// Whether the open window has its commit, and the device follows the staged plan.
    fn may_seal(&self, d: u32) -> bool
        requires range { d < length self.now.net.devices }
        ensures { result
            ≡ (is_committed self.now.membership.world.window
            && is_of self.now.membership (staged_number self.now.membership) d) }
    {
        self.membership.world().window() == Window::Committed
            && self
                .membership
                .follows(self.membership.world().epoch() + 1, d)
    }
}

/// What remains.
impl Fabric {
    pub(crate) fn mends_whole(&self, event: &Event) -> bool
        requires device { IfSome (device_of event.now) (λ d. d < length self.now.net.devices) }
        requires link { IfSome (link_of event.now) (λ l. l < length self.now.net.links) }
        ensures { result ≡ map_or (things.mended event.now) false
            (λ x. not (failed_at self.now.membership.world x)) }
    {
        match *event {
            Event::MendDevice { device, .. } => {
                !self.membership.world().has_failed(Thing::Device(device))
            }
            Event::MendLink { link, .. } => !self.membership.world().has_failed(Thing::Link(link)),
            _ => false,
        }
    }

    pub(crate) fn names_no_member(&self, event: &Event) -> bool
        requires { IfSome (device_of event.now) (λ d. d < length self.now.net.devices) }
        ensures { result
            ≡ (map_or (started event.now) false (λ d. not (is_in_force self.now.membership d))
            || map_or (given event.now) false (λ d. not (is_in_staged self.now.membership d))
            || map_or (joined event.now) false (λ d. not (is_in_staged self.now.membership d))) }
    {
        match *event {
            Event::Start { device, .. } => !self.membership.is_in_force(device),
            Event::Give { device, .. } | Event::Join { device, .. } => {
                !self.membership.is_in_staged(device)
            }
            _ => false,
        }
    }

    pub(crate) fn is_too_late(&self) -> bool
        ensures { result ≡ nat_le (2 ^ 26) self.now.membership.world.events }
    {
        self.membership.world().events() >= MOST_EVENTS
    }
}
