//! How a tally goes on with an event.
ghost use Rattle.std.specs.Prelude.{◌≡◌, ◌≤◌, count_by};
ghost use Rattle.sd_history.specs.Lines.{broken_lines};
ghost use Rattle.sd_replay.specs.lines.Findings.{found_lines};
ghost use Rattle.sd_replay.specs.Tallies.{is_broken, is_alarm};
ghost use Rattle.sd_num.specs.Lists.{map_or};
ghost use Rattle.sd_replay.specs.Counting.{HasRoom, no_tally, one, tally_with, with_nothing};

use crate::Tally;
use crate::lines::Findings;
use sd_history::BrokenSet;

/// 1 where it is so, else 0.
fn one(so: bool) -> u64
    ensures count { result ≡ one so }
    ensures few { result ≤ 1 }
{
    u64::from(so)
}

/// How many premises break.
fn broken_count(broken: &BrokenSet) -> u64
    ensures count { result ≡ count_by is_broken (broken_lines broken.now) }
    ensures few { result ≤ 7 }
{
    one(broken.start)
        + one(broken.drift)
        + one(broken.delay)
        + one(broken.tick)
        + one(broken.loss)
        + one(broken.domain)
        + one(broken.renew)
}

/// How many alarms there are.
fn alarm_count(findings: &Findings) -> u64
    ensures count { result ≡ count_by is_alarm (found_lines findings.now) }
    ensures few { result ≤ 3 }
{
    one(findings.looped.is_some()) + one(findings.roots.is_some()) + one(findings.misses())
}

/// The uncertainty that the event reports, 0 where it reports nothing.
fn eps_of(findings: &Findings) -> u128
    ensures { result ≡ map_or findings.now.report 0 (λ told. told.1.eps) }
{
    match findings.report {
        Some((_, report)) => report.eps,
        None => 0,
    }
}

impl Tally {
    /// Nothing has happened.
    pub(crate) fn new() -> Tally
        ensures { result ≡ no_tally }
    {
        Tally {
            events: 0,
            reports: 0,
            broken: 0,
            alarms: 0,
            greatest_eps: 0,
        }
    }

    /// The tally with one event more, of which nothing is to be printed.
    pub(crate) fn with_nothing(self) -> Tally
        requires { HasRoom self }
        ensures { result ≡ with_nothing self }
    {
        Tally {
            events: self.events + 1,
            ..self
        }
    }

    /// The tally with one event more, of which this was found.
    pub(crate) fn with(self, findings: &Findings) -> Tally
        requires { HasRoom self }
        ensures { result ≡ tally_with self findings.now }
    {
        Tally {
            events: self.events + 1,
            reports: self.reports + one(findings.report.is_some()),
            broken: self.broken + broken_count(&findings.broken),
            alarms: self.alarms + alarm_count(findings),
            greatest_eps: self.greatest_eps.max(eps_of(findings)),
        }
    }
}
