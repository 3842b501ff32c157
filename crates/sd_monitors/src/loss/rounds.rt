//! The premise of loss, judged event by event: no K + 1 consecutive rounds of one term are all
//! spoiled, K the topology's loss.
ghost use Rattle.std.specs.Prelude.{◌≡◌, ◌≤◌, ◌+◌, ℕ, List, [], ◌∷◌, ◌||◌, ◌&&◌, length, map, max, nat_eq, true, false, IsTrue, OnOk, IfOk};
ghost use Rattle.sd_num.specs.Lists.{greatest};
ghost use Rattle.sd_plan.specs.declared.topo.Thing.{Thing as AnyThing};
ghost use Rattle.sd_plan.specs.topo.Topologies.{network};
ghost use Rattle.sd_history.specs.Premises.{loss_holds};
ghost use Rattle.sd_history.specs.World.{Setting, Seen};
ghost use Rattle.sd_monitors.specs.loss.rounds.Order.{Follows};
ghost use Rattle.sd_monitors.specs.loss.flights.Runs.{HasLongRun};
ghost use Rattle.sd_monitors.specs.loss.rounds.Loss.{AddsLost, HasOnlyLost, with_sent, if_in_time};
ghost use Rattle.sd_monitors.specs.loss.flights.RunsView.{has_round, room_of as room_of_runs};
ghost use Rattle.sd_monitors.specs.loss.flights.WaitingView.{waiting_at, count_of};
ghost use Rattle.sd_monitors.specs.loss.flights.InterruptionsView.{mark_of, last_number, HasSamePlaces};

use crate::loss::flights::{Interruptions, Runs, Waiting, WaitingFlight};
use sd_device::msg::Flight;
use sd_num::NoMemory;
use sd_plan::topo::{Thing, Topology};
use std::alloc::Global;

/// Judges the premise of loss event by event: that no K + 1 consecutive rounds of one term are all
/// spoiled, K the topology's loss.
///
/// It keeps what later events can ask for: the flights that were sent and not yet received, until
/// an event lies past their due; which of them a failure interrupted; and the spoiled rounds. Once
/// the premise is broken it keeps no more.
#[derive(Drop)]
pub struct Rounds {
    /// K, the greatest number of consecutive rounds that may be spoiled.
    limit: u32,
    /// Whether the premise holds so far.
    holds: bool,
    waiting: Waiting,
    interruptions: Interruptions,
    runs: Runs,
    ghost room: { count_of waiting ≤ room_of_runs runs },
}

impl Rounds {
    ghost use Rattle.sd_monitors.specs.loss.rounds.Standing.{StandsFor, IsShown, room_of};

    /// The monitor before any event.
    pub fn new(alloc: Global, topo: &Topology) -> Result<Rounds, NoMemory>
        ensures { IfOk result (λ rounds. (setting : Setting) → setting.net ≡ network topo.now
            → StandsFor rounds setting []) }
    {
        let interruptions = Interruptions::new(alloc, topo.devices(), topo.links())?;
        Ok(Rounds {
            limit: topo.params().loss,
            holds: true,
            waiting: Waiting::new(alloc),
            interruptions,
            runs: Runs::new(alloc),
        })
    }

    /// Makes room for an event that sends this many flights that reach.
    #[tactic(auto, using(crate::proofs::loss::rounds::Waits::waiting_same))]
    pub fn ready(&mut self, alloc: Global, sent: usize) -> Result<(), NoMemory>
        ensures room { OnOk result (sent ≤ room_of self.new) }
        ensures grows { room_of self.old ≤ room_of self.new }
        ensures stands { (setting : Setting) (seen : List Seen) → StandsFor self.old setting seen
            → StandsFor self.new setting seen }
    {
        self.waiting.ready(sent)?;
        match self.waiting.len().checked_add(sent) {
            Some(count) => self.runs.ready(count),
            None => Err(NoMemory),
        }
    }

    /// Sees an event at a reference, with the thing that it fails, the number of the flight that it
    /// received and the flights that it sent and that reach, and answers whether the premise still
    /// holds. It takes no memory.
    #[inline(always)]
    pub fn see(
        &mut self,
        reference: u64,
        failed: Option<Thing>,
        taken: Option<u64>,
        sent: &[Flight],
    ) -> bool
        requires room { length sent.now ≤ room_of self.old }
        ensures stands { (setting : Setting) (earlier : List Seen) (s : Seen)
            → IsShown reference failed taken sent.now s → Follows setting earlier s
            → StandsFor self.old setting earlier → StandsFor self.new setting (s ∷ earlier) }
        ensures holds { (setting : Setting) (earlier : List Seen) (s : Seen)
            → IsShown reference failed taken sent.now s → Follows setting earlier s
            → StandsFor self.old setting earlier → result ≡ loss_holds setting (s ∷ earlier) }
        ensures room { room_of self.old ≤ room_of self.new + length sent.now }
    {
        if !self.holds {
            return false;
        }
        self.waiting.receive(taken);
        self.interruptions.fail(failed);
        self.holds = self.judge(reference);
        self.send(sent);
        self.holds
    }

    /// Spoils the round of each flight that is overdue at the reference and that nothing
    /// interrupted, and tells whether the premise holds still; if not, some may be left.
    // Mostly none is overdue, and that is seen with no call.
    #[inline(always)]
    fn judge(&mut self, reference: u64) -> bool
        ensures waiting { IsTrue result → (n : ℕ)
            → waiting_at self.new.waiting n ≡ if_in_time reference (waiting_at self.old.waiting n) }
        ensures lost { IsTrue result
            → AddsLost (waiting_at self.old.waiting) (mark_of self.old.interruptions) reference
            (has_round self.old.runs) (has_round self.new.runs) }
        ensures only { HasOnlyLost (waiting_at self.old.waiting) (mark_of self.old.interruptions)
            reference
            (has_round self.old.runs) (has_round self.new.runs) }
        ensures short { IsTrue result → ¬ HasLongRun self.old.limit (has_round self.old.runs)
            → ¬ HasLongRun self.old.limit (has_round self.new.runs) }
        ensures long { result ≡ false → HasLongRun self.old.limit (has_round self.new.runs) }
        ensures room { room_of self.old ≤ room_of self.new }
        ensures interruptions { self.new.interruptions ≡ self.old.interruptions }
        ensures limit { self.new.limit ≡ self.old.limit }
    {
        if !self.waiting.may_be_overdue(reference) {
            return true;
        }
        self.judge_each(reference)
    }

    /// As `judge`, by one flight after the other.
    #[inline(never)]
    fn judge_each(&mut self, reference: u64) -> bool
        ensures waiting { IsTrue result → (n : ℕ)
            → waiting_at self.new.waiting n ≡ if_in_time reference (waiting_at self.old.waiting n) }
        ensures lost { IsTrue result
            → AddsLost (waiting_at self.old.waiting) (mark_of self.old.interruptions) reference
            (has_round self.old.runs) (has_round self.new.runs) }
        ensures only { HasOnlyLost (waiting_at self.old.waiting) (mark_of self.old.interruptions)
            reference
            (has_round self.old.runs) (has_round self.new.runs) }
        ensures short { IsTrue result → ¬ HasLongRun self.old.limit (has_round self.old.runs)
            → ¬ HasLongRun self.old.limit (has_round self.new.runs) }
        ensures long { result ≡ false → HasLongRun self.old.limit (has_round self.new.runs) }
        ensures room { room_of self.old ≤ room_of self.new }
        ensures interruptions { self.new.interruptions ≡ self.old.interruptions }
        ensures limit { self.new.limit ≡ self.old.limit }
    {
        'overdue: while let Some(flight) = self.waiting.next_overdue(reference) {
            if self.interruptions.interrupted(&flight) {
                continue;
            }
            if self.runs.spoil(flight.stamp, self.limit) {
                return false;
            }
        }
        true
    }

    /// The flights are sent.
    fn send(&mut self, sent: &[Flight])
        requires { length sent.now ≤ room_of self.old }
        ensures waiting { (n : ℕ)
            → waiting_at self.new.waiting n ≡ with_sent sent.now (waiting_at self.old.waiting) n }
        ensures last { last_number self.new.interruptions
            ≡ max (last_number self.old.interruptions) (greatest (map (λ f. f.number) sent.now)) }
        ensures marks { (x : AnyThing)
            → mark_of self.new.interruptions x ≡ mark_of self.old.interruptions x }
        ensures places { HasSamePlaces self.old.interruptions self.new.interruptions }
        ensures room { room_of self.old ≤ room_of self.new + length sent.now }
        ensures runs { self.new.runs ≡ self.old.runs }
        ensures limit { self.new.limit ≡ self.old.limit }
        ensures holds { self.new.holds ≡ self.old.holds }
    {
        for flight in sent {
            self.waiting.add(WaitingFlight::of(flight));
            self.interruptions.send(flight.number);
        }
    }

    /// Whether the premise holds so far.
    pub fn holds(&self) -> bool
        ensures { (setting : Setting) (seen : List Seen) → StandsFor self.now setting seen
            → result ≡ loss_holds setting seen }
    {
        self.holds
    }
}
