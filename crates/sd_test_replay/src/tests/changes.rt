//! What fails, and how plans are changed.

use super::course::Course;
use super::tempers::{Failures, Renewals};
use sd_plan::topo::Thing;
use sd_sched::Event;
use sd_test_fleet_kit::plain::{Numbers, Stage, Turn};

/// This many events pass under a plan before what is planned fails.
const BEFORE_FAILURE: usize = 50;

impl Course<'_> {
    /// What fails so that the next plan fits, if there is such a thing.
    fn planned_failure(&self) -> Option<Thing> {
        let place = self.plain().epoch().checked_sub(1)?;
        *self.failures.get(place as usize)?
    }

    /// A failure, if one is due.
    pub(super) fn failure(&self, numbers: &mut Numbers) -> Option<Event> {
        match self.temper.failures {
            Failures::Nothing => None,
            Failures::Planned => self.fail_as_planned(),
            Failures::Anything => self.fail_anything(numbers),
        }
    }

    fn fail_as_planned(&self) -> Option<Event> {
        let thing = self.planned_failure()?;
        let passed = self
            .plain()
            .steps
            .len()
            .saturating_sub(self.replay.closed_at());
        let is_due = passed > BEFORE_FAILURE && !self.plain().is_open();
        if is_due && !self.plain().has_failed(thing) {
            Some(self.fail(thing))
        } else {
            None
        }
    }

    fn fail_anything(&self, numbers: &mut Numbers) -> Option<Event> {
        let link = Thing::Link(numbers.small(self.plain().net.links()));
        let device = Thing::Device(numbers.small(self.plain().net.devices));
        let thing = if numbers.once_in(3) { device } else { link };
        if numbers.once_in(3) && !self.plain().has_failed(thing) {
            Some(self.fail(thing))
        } else {
            None
        }
    }

    /// A step of a change of plan, if one is due.
    pub(super) fn renewal(&self, numbers: &mut Numbers) -> Option<Event> {
        match self.temper.renewals {
            Renewals::Never => None,
            Renewals::Careful => self.careful_step(numbers),
            Renewals::Rash => self.rash_step(numbers),
        }
    }

    /// The next step, once all is ready for it.
    fn careful_step(&self, numbers: &mut Numbers) -> Option<Event> {
        match self.plain().stage() {
            Stage::NoWindow if self.fits_next() => Some(self.stage()),
            Stage::NoWindow => None,
            Stage::Preparing => self.prepare(numbers),
            Stage::Committed if self.replay.has_laggard() => None,
            Stage::Committed => Some(self.seal(self.plain().first(Turn::Seal)?)),
        }
    }

    /// Whether all is as the next plan has it, but for what is to be mended and to join.
    fn fits_next(&self) -> bool {
        let next = self.plain().staged_epoch();
        let failed = match self.planned_failure() {
            Some(thing) => self.plain().has_failed(thing),
            None => true,
        };
        match self.plain().net.root(next) {
            Some(root) => failed && self.plain().acts(root) && !self.has_stray(next),
            None => false,
        }
    }

    /// Whether some device is up that is left out of a plan.
    fn has_stray(&self, epoch: u32) -> bool {
        for d in 0..self.plain().net.devices {
            if self.plain().is_up(d) && !self.plain().net.is_member(epoch, d) {
                return true;
            }
        }
        false
    }

    /// What is to be done before a commit, and then the commit.
    fn prepare(&self, numbers: &mut Numbers) -> Option<Event> {
        if let Some(thing) = self.to_mend() {
            Some(self.mend(thing))
        } else if let Some(d) = self.plain().first(Turn::Join) {
            Some(self.join(numbers, d))
        } else if let Some(d) = self.plain().first(Turn::Give) {
            Some(self.give(d))
        } else {
            Some(self.commit(self.plain().net.root(self.plain().staged_epoch())?))
        }
    }

    /// A failed thing that the staged plan needs.
    fn to_mend(&self) -> Option<Thing> {
        if let Some(d) = self.plain().first(Turn::Mend)
            && self.plain().is_in_staged(d)
        {
            return Some(Thing::Device(d));
        }
        let link = self.plain().failed_link()?;
        if self.replay.leaves_out(link) {
            None
        } else {
            Some(Thing::Link(link))
        }
    }

    /// Any step that the fleet may accept.
    fn rash_step(&self, numbers: &mut Numbers) -> Option<Event> {
        match self.plain().stage() {
            Stage::NoWindow if numbers.once_in(4) => Some(self.stage()),
            Stage::NoWindow => None,
            Stage::Preparing => self.rash_preparation(numbers),
            Stage::Committed if numbers.once_in(3) => {
                Some(self.seal(self.plain().first(Turn::Seal)?))
            }
            Stage::Committed => None,
        }
    }

    fn rash_preparation(&self, numbers: &mut Numbers) -> Option<Event> {
        match numbers.below(9) {
            0 => Some(self.mend(Thing::Device(self.plain().first(Turn::Mend)?))),
            1 => Some(self.mend(Thing::Link(self.plain().failed_link()?))),
            2 | 3 => Some(self.join(numbers, self.plain().first(Turn::Join)?)),
            4..=6 => Some(self.give(self.plain().first(Turn::Give)?)),
            7 => Some(self.commit(self.plain().net.root(self.plain().staged_epoch())?)),
            _ => None,
        }
    }
}
