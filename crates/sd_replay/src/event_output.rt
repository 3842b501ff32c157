//! What is written of each event.
ghost use Rattle.std.specs.Prelude.{◌≡◌, [], IfOk, false};
ghost use Rattle.sd_replay.specs.lines.Printed.{printed};
ghost use Rattle.sd_plan.specs.topo.Topologies.{network};
ghost use Rattle.sd_replay.specs.lines.Findings.{IsOf, finds_none};
ghost use Rattle.sd_replay.specs.Troubles.{found_by};
ghost use Rattle.sd_replay.specs.Counting.{HasRoom, no_tally};
ghost use Rattle.sd_replay.specs.Standing.{IsNoted};

use crate::Tally;
use crate::lines::{EventLines, Findings, finds_none, print_findings};
use crate::trouble::Trouble;
use sd_num::NoMemory;
use sd_num::clock::Report;
use sd_plan::topo::Topology;
use std::alloc::Global;

/// The lines of the last event, and the tally of all. Only `new` takes memory.
#[derive(Drop)]
pub(crate) struct EventOutput {
    pub(crate) topology: Topology,
    pub(crate) lines: EventLines,
    pub(crate) tally: Tally,
    pub(crate) ended: bool,
}

/// Whether nothing is to be printed of an event, as of nearly all.
#[inline(always)]
fn brings_none(trouble: &Trouble, report: &Option<(u32, Report)>) -> bool
    ensures { result ≡ finds_none trouble.now.broken trouble.now.alarms.looped
        trouble.now.alarms.roots report.now }
{
    finds_none(
        &trouble.broken,
        &trouble.alarms.looped,
        &trouble.alarms.roots,
        report,
    )
}

/// What is to be printed of an event.
fn findings_of(trouble: &Trouble, report: &Option<(u32, Report)>, reference: u64) -> Findings
    ensures { result ≡ found_by trouble.now report.now reference }
{
    Findings {
        broken: trouble.broken,
        looped: trouble.alarms.looped,
        roots: trouble.alarms.roots,
        report: *report,
        reference,
    }
}

impl EventOutput {
    /// Before any event.
    pub(crate) fn new(alloc: Global, topology: Topology) -> Result<EventOutput, NoMemory>
        ensures net { IfOk result (λ j. network j.topology ≡ network topology) }
        ensures lines { IfOk result (λ j. printed j.lines ≡ []) }
        ensures tally { IfOk result (λ j. j.tally ≡ no_tally) }
        ensures ended { IfOk result (λ j. j.ended ≡ false) }
    {
        let lines = EventLines::new(alloc)?;
        Ok(EventOutput {
            topology,
            lines,
            tally: Tally::new(),
            ended: false,
        })
    }

    /// Writes an event that brings this trouble and has this report, in place of the one before.
    #[inline(always)]
    pub(crate) fn note(
        &mut self,
        trouble: &Trouble,
        report: &Option<(u32, Report)>,
        reference: u64,
        ended: bool,
    )
        requires room { HasRoom self.old.tally }
        requires devices { IsOf (network self.old.topology)
            (found_by trouble.now report.now reference) }
        ensures noted { IsNoted self.old self.new (found_by trouble.now report.now reference) }
        ensures ended { self.new.ended ≡ ended }
    {
        if brings_none(trouble, report) {
            self.tally = self.tally.with_nothing();
            self.lines.clear();
        } else {
            // Of a copy, so that the trouble of nearly all events, none, is written nowhere.
            let held = *trouble;
            self.note_trouble(&held, report, reference);
        }
        self.ended = ended;
    }

    /// Counts and prints what is found of an event.
    #[inline(never)]
    fn note_trouble(&mut self, trouble: &Trouble, report: &Option<(u32, Report)>, reference: u64)
        requires room { HasRoom self.old.tally }
        requires devices { IsOf (network self.old.topology)
            (found_by trouble.now report.now reference) }
        ensures { IsNoted self.old self.new (found_by trouble.now report.now reference) }
    {
        let found = findings_of(trouble, report, reference);
        self.tally = self.tally.with(&found);
        print_findings(&mut self.lines, &self.topology, self.tally.events, &found);
    }
}
