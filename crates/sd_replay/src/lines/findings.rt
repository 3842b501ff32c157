//! What is found of one event.
ghost use Rattle.std.specs.Prelude.{◌≡◌};
ghost use Rattle.sd_replay.specs.lines.Findings.{breaks_some, finds_none, are_none, misses_in};

use crate::watch::outside;
use sd_history::BrokenSet;
use sd_num::clock::Report;

/// What is to be printed of one event, and nothing else.
#[derive(Clone, Copy, Debug, PartialEq, Eq)]
pub struct Findings {
    /// The premises that break with it.
    pub broken: BrokenSet,
    /// The least device on a loop of parents, where there was no loop before.
    pub looped: Option<u32>,
    /// The two least devices that act as root, where fewer than two acted before.
    pub roots: Option<(u32, u32)>,
    /// The device that was asked, with its report.
    pub report: Option<(u32, Report)>,
    /// The reference time of the event, in ps.
    pub reference: u64,
}

/// Whether some premise breaks.
fn breaks_some(broken: &BrokenSet) -> bool
    ensures { result ≡ breaks_some broken.now }
{
    broken.start
        || broken.drift
        || broken.delay
        || broken.tick
        || broken.loss
        || broken.domain
        || broken.renew
}

/// Whether none of these is found of an event.
#[inline(always)]
pub(crate) fn finds_none(
    broken: &BrokenSet,
    looped: &Option<u32>,
    roots: &Option<(u32, u32)>,
    report: &Option<(u32, Report)>,
) -> bool
    ensures { result ≡ finds_none broken.now looped.now roots.now report.now }
{
    !breaks_some(broken) && looped.is_none() && roots.is_none() && report.is_none()
}

impl Findings {
    /// Whether nothing is to be printed of the event, as of nearly all.
    pub fn are_none(&self) -> bool
        ensures { result ≡ are_none self.now }
    {
        finds_none(&self.broken, &self.looped, &self.roots, &self.report)
    }

    /// Whether the event has a report whose interval does not have the reference time in it.
    pub fn misses(&self) -> bool
        ensures { result ≡ misses_in self.now }
    {
        match self.report {
            Some((_, report)) => outside(report, self.reference),
            None => false,
        }
    }
}
