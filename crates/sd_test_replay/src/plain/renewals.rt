//! The premise on changes of plan.

use super::replay::PlainReplay;
use sd_plan::topo::{LinkEntry, Thing};
use sd_sched::Event;
use sd_test_fleet_kit::plain::{Stage, Step, Subject, mended_by};
use std::alloc::AllocError;

impl PlainReplay<'_> {
    /// An event of a change of plan that comes too early, or that does not belong there.
    pub(crate) fn is_against_renew(&self, event: &Event) -> Result<bool, AllocError> {
        Ok(match *event {
            Event::Commit { device, .. } => self.is_rash_commit(device)?,
            Event::Seal { .. } => self.is_rash_seal(),
            Event::FailDevice { .. } | Event::FailLink { .. } => self.is_rash_failure(),
            Event::Start { .. } => self.was_staged(),
            Event::Join { device, .. } => {
                self.plain.is_in_force(device) && !self.was_touched(device)
            }
            _ => false,
        })
    }

    /// Whether a window was ever opened.
    fn was_staged(&self) -> bool {
        for step in &self.plain.steps {
            if matches!(step.event, Event::Stage { .. }) {
                return true;
            }
        }
        false
    }

    /// Whether a step belongs to the open window.
    fn is_in_window(&self, step: &Step) -> bool {
        match self.plain.opening() {
            Some(opening) => step.place > opening,
            None => false,
        }
    }

    /// A failure between the first mend or the commit of a window and its closing.
    fn is_rash_failure(&self) -> bool {
        self.plain.stage() == Stage::Committed || self.has_mended()
    }

    /// Whether something was mended in the open window.
    fn has_mended(&self) -> bool {
        for step in &self.plain.steps {
            if self.is_in_window(step) && mended_by(&step.event).is_some() {
                return true;
            }
        }
        false
    }

    /// The first seal of a window, while some device does not follow the staged plan.
    fn is_rash_seal(&self) -> bool {
        !self.has_sealed() && self.has_laggard()
    }

    /// Whether a device was sealed in the open window.
    fn has_sealed(&self) -> bool {
        for step in &self.plain.steps {
            if self.is_in_window(step) && matches!(step.event, Event::Seal { .. }) {
                return true;
            }
        }
        false
    }

    /// Whether some device that is up and in the staged plan does not follow it.
    pub fn has_laggard(&self) -> bool {
        let staged = self.plain.staged_epoch();
        for d in 0..self.site.net.devices {
            if self.plain.is_present(d) && !self.plain.is_of(d, staged) {
                return true;
            }
        }
        false
    }

    /// A commit of a device that does not act as root, or for which not all is prepared.
    fn is_rash_commit(&self, root: u32) -> Result<bool, AllocError> {
        Ok(
            !self.plain.acts(root)
                || self.has_unprepared()
                || self.has_forgotten_link()
                || self.has_stray(root)?,
        )
    }

    /// Whether some member of the staged plan is not ready for it.
    fn has_unprepared(&self) -> bool {
        for d in 0..self.site.net.devices {
            if self.plain.is_in_staged(d) && !self.is_prepared(d) {
                return true;
            }
        }
        false
    }

    fn is_prepared(&self, d: u32) -> bool {
        let joined = self.plain.joined_in_window(d);
        self.plain.is_up(d) && self.was_told(d) && (joined || self.plain.is_in_force(d))
    }

    /// Whether a device was given its duty in the open window, after its join where it joined there.
    fn was_told(&self, d: u32) -> bool {
        let joined_at = match self.plain.latest(d, Subject::Making) {
            Some(made) if self.plain.joined_in_window(d) => made.place,
            _ => 0,
        };
        for step in &self.plain.steps {
            let gives = matches!(step.event, Event::Give { .. }) && step.names(d);
            if gives && self.is_in_window(step) && step.place > joined_at {
                return true;
            }
        }
        false
    }

    /// Whether some failed link is not left out of the staged plan.
    fn has_forgotten_link(&self) -> bool {
        for l in 0..self.site.net.links() {
            if self.plain.has_failed(Thing::Link(l)) && !self.leaves_out(l) {
                return true;
            }
        }
        false
    }

    /// Whether the staged plan leaves a link out.
    pub fn leaves_out(&self, l: u32) -> bool {
        match self.site.net.plan(self.plain.staged_epoch()) {
            Some(plan) => plan.absent.links.as_slice().contains(&l),
            None => false,
        }
    }

    /// Whether some device that is up and left out of the staged plan is joined to its root.
    fn has_stray(&self, root: u32) -> Result<bool, AllocError> {
        let joined = self.joined_to(root)?;
        for d in &joined {
            if self.plain.is_up(*d) && !self.plain.is_in_staged(*d) {
                return Ok(true);
            }
        }
        Ok(false)
    }

    /// The devices that are joined to one by devices that are up and links that have not failed.
    fn joined_to(&self, root: u32) -> Result<Vec<u32>, AllocError> {
        let mut joined = Vec::new(self.plain.alloc);
        joined.push(root)?;
        for _ in 0..self.site.net.devices {
            self.spread(&mut joined)?;
        }
        Ok(joined)
    }

    /// Adds what one more link joins.
    fn spread(&self, joined: &mut Vec<u32>) -> Result<(), AllocError> {
        for l in 0..self.site.net.links() {
            if let Some(d) = self.next_over(l, joined.as_slice()) {
                joined.push(d)?;
            }
        }
        Ok(())
    }

    /// The device that a link joins to some others, where it is not one of them.
    fn next_over(&self, l: u32, joined: &[u32]) -> Option<u32> {
        let LinkEntry { end_a, end_b, .. } = self.site.net.link(l)?;
        if self.plain.has_failed(Thing::Link(l)) {
            return None;
        }
        match (joined.contains(&end_a), joined.contains(&end_b)) {
            (true, false) => Some(end_b).filter(|d| self.plain.is_up(*d)),
            (false, true) => Some(end_a).filter(|d| self.plain.is_up(*d)),
            _ => None,
        }
    }
}
