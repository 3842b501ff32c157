//! How often each kind of thing came in all histories.

use crate::plain::{Found, PREMISES, Premise};

/// What was seen in one history.
#[derive(Drop)]
pub(super) struct Seen {
    pub(super) events: u64,
    /// Events that the fleet refused.
    pub(super) refused: u64,
    pub(super) closings: u64,
    pub(super) reports: u64,
    /// Lines that name a broken premise.
    pub(super) broken: u64,
    /// Alarms of loops, of roots and of intervals.
    alarms: [u64; 3],
}

/// In how many histories a thing came, and in how many it did not.
#[derive(Clone, Copy, Debug)]
struct Count {
    with: u64,
    without: u64,
}

/// What was seen in all histories.
#[derive(Debug, Drop)]
pub(super) struct Tally {
    pub(super) events: u64,
    pub(super) refused: u64,
    closings: u64,
    premises: [Count; 7],
    alarms: [Count; 3],
}

const NONE: Count = Count {
    with: 0,
    without: 0,
};

impl Count {
    fn add(&mut self, came: bool) {
        self.with = self.with.saturating_add(u64::from(came));
        self.without = self.without.saturating_add(u64::from(!came));
    }
}

/// Whether each thing came in this many histories, and did not in as many.
fn are_ample(counts: &[Count], least: u64) -> bool {
    for count in counts {
        if count.with < least || count.without < least {
            return false;
        }
    }
    true
}

impl Seen {
    pub(super) fn new() -> Seen {
        Seen {
            events: 0,
            refused: 0,
            closings: 0,
            reports: 0,
            broken: 0,
            alarms: [0; 3],
        }
    }

    pub(super) fn refuse(&mut self) {
        self.refused = self.refused.saturating_add(1);
    }

    /// An event of which this was found.
    pub(super) fn accept(&mut self, found: &Found, closed: bool) {
        self.events = self.events.saturating_add(1);
        self.closings = self.closings.saturating_add(u64::from(closed));
        let reports = u64::from(found.report.is_some());
        self.reports = self.reports.saturating_add(reports);
        self.broken = self.broken.saturating_add(found.broken.len() as u64);
        let [loops, roots, misses] = self.alarms;
        self.alarms = [
            loops.saturating_add(u64::from(found.looped.is_some())),
            roots.saturating_add(u64::from(found.roots.is_some())),
            misses.saturating_add(u64::from(found.misses())),
        ];
    }

    /// How many alarms there were.
    pub(super) fn alarms(&self) -> u64 {
        let [loops, roots, misses] = self.alarms;
        loops.saturating_add(roots).saturating_add(misses)
    }
}

impl Tally {
    pub(super) fn new() -> Tally {
        Tally {
            events: 0,
            refused: 0,
            closings: 0,
            premises: [NONE; 7],
            alarms: [NONE; 3],
        }
    }

    /// A history, with the premises that are broken after it.
    pub(super) fn add(&mut self, seen: &Seen, broken: &[Premise]) {
        self.events = self.events.saturating_add(seen.events);
        self.refused = self.refused.saturating_add(seen.refused);
        self.closings = self.closings.saturating_add(seen.closings);
        for (count, premise) in self.premises.iter_mut().zip(PREMISES) {
            count.add(broken.contains(&premise));
        }
        for (count, alarms) in self.alarms.iter_mut().zip(seen.alarms) {
            count.add(alarms > 0);
        }
    }

    /// Whether each premise broke in this many histories and held in as many, and each alarm came
    /// in this many and did not come in as many.
    pub(super) fn is_ample(&self, least: u64) -> bool {
        are_ample(&self.premises, least) && are_ample(&self.alarms, least) && self.closings >= least
    }
}
