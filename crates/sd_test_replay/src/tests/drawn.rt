//! The next event of a history, drawn by lot.

use super::course::{Coming, Course};
use super::tempers::{Renewals, goes_wrong};
use sd_sched::Event;
use sd_test_fleet_kit::plain::{Numbers, Turn};

impl Course<'_> {
    /// The next event. It is mostly one that the fleet accepts.
    pub(super) fn draw(&self, numbers: &mut Numbers) -> Event {
        if let Some(d) = self.plain().first(Turn::Start)
            && !self.starts_late(numbers)
        {
            return self.start(numbers, d);
        }
        match self.special(numbers) {
            Some(event) => event,
            None => self.regular(numbers),
        }
    }

    /// Whether a device that is to start does not do so yet.
    fn starts_late(&self, numbers: &mut Numbers) -> bool {
        goes_wrong(numbers, self.temper.ticks)
            || (self.temper.renewals == Renewals::Rash && !numbers.once_in(8))
    }

    /// What does not come by itself.
    fn special(&self, numbers: &mut Numbers) -> Option<Event> {
        let d = numbers.small(self.plain().net.devices);
        match numbers.below(20) {
            0 if self.plain().is_up(d) => Some(self.ask(d)),
            1 if self.plain().is_up(d) && numbers.once_in(3) => Some(self.fix(numbers, d)),
            2 => self.failure(numbers),
            3..=9 => self.renewal(numbers),
            _ => None,
        }
    }

    /// What comes next by itself, and a stage where nothing does.
    fn regular(&self, numbers: &mut Numbers) -> Event {
        let Some((moment, coming)) = self.next() else {
            return self.stage();
        };
        let reference = moment.max(self.now()).saturating_add(self.silence(numbers));
        match coming {
            Coming::Tick(d) => self.tick(d, reference),
            Coming::Message(sent) => self.arrive(&sent, reference),
        }
    }

    /// For how long nothing happens that ought to.
    fn silence(&self, numbers: &mut Numbers) -> u64 {
        if !goes_wrong(numbers, self.temper.silences) {
            return 0;
        }
        match self.plain().net.plan(self.plain().epoch()) {
            Some(plan) => numbers.below(plan.wait.saturating_mul(2)),
            None => 0,
        }
    }
}
