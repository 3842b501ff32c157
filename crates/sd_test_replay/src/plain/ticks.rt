//! The premise on ticks.

use super::clocks::is_making;
use super::replay::PlainReplay;
use sd_plan::topo::Thing;
use sd_sched::Event;

impl PlainReplay<'_> {
    /// A moment at which some device has not looked at its counter for too long.
    pub(crate) fn is_against_tick(&self, event: &Event) -> bool {
        for d in 0..self.site.net.devices {
            if self.is_overdue(d, event.reference()) {
                return true;
            }
        }
        false
    }

    fn is_overdue(&self, d: u32, reference: u64) -> bool {
        match self.waits_since(d) {
            Some(since) => reference > since.saturating_add(self.site.tick),
            None => false,
        }
    }

    /// Since when a device waits that ought to tick or to start.
    fn waits_since(&self, d: u32) -> Option<u64> {
        if self.plain.is_up(d) {
            let is_member = self.plain.is_in_force(d) || self.plain.is_in_staged(d);
            self.latest_look(d).filter(|_| is_member)
        } else if self.site.net.is_member(1, d) && !self.was_touched(d) {
            Some(self.plain.steps.first()?.event.reference())
        } else {
            None
        }
    }

    /// The reference of the latest tick, start or join of a device.
    fn latest_look(&self, d: u32) -> Option<u64> {
        let mut latest = None;
        for step in &self.plain.steps {
            let looks = matches!(step.event, Event::Tick { .. }) || is_making(&step.event);
            if looks && step.names(d) {
                latest = Some(step.event.reference());
            }
        }
        latest
    }

    /// Whether the device was ever started, joined or failed.
    pub(crate) fn was_touched(&self, d: u32) -> bool {
        for step in &self.plain.steps {
            if step.fails(Thing::Device(d)) || (is_making(&step.event) && step.names(d)) {
                return true;
            }
        }
        false
    }
}
