//! The replay: what happens with a line of a schedule.
ghost use Rattle.std.specs.Prelude.{◌≡◌, ◌≤◌, ◌<◌, ◌^◌, ℕ, List, [], length, false, Some, None, Err, IsTrue, OnOk, IfOk, OnErr, IfErr, IfSome, option_map};
ghost use Rattle.sd_plan.specs.topo.Topologies.{network};
ghost use Rattle.sd_plan.specs.topo.Network.{Each as OfEach};
ghost use Rattle.sd_plan.specs.Plans.{Fits};
ghost use Rattle.sd_checker.specs.Conditions.{IsAccepted};
ghost use Rattle.sd_sched.specs.declared.Event.TheVariants as events_of;
ghost use Rattle.sd_sched.specs.Lines.{event_of_line};
ghost use Rattle.sd_sched.specs.Spelled.{is_within};
ghost use Rattle.sd_sched.specs.Events.{is_ask};
ghost use Rattle.sd_history.specs.World.{Setting};
ghost use Rattle.sd_device.specs.msg.Observed.{ReportAt};
ghost use Rattle.sd_fleet.specs.Room.{ends_in, most_sent_in};
ghost use Rattle.sd_fleet.specs.Standing as fleets;
ghost use Rattle.sd_world.specs.membership.Plans.{AreSound};
ghost use Rattle.sd_premise.specs.Standing as premises;
ghost use Rattle.sd_history.specs.Steps.{Step, seen_of};
ghost use Rattle.sd_history.specs.Nodes.{NodeStep, steps_of};
ghost use Rattle.sd_history.specs.Refusals.{refusal, after_end};
ghost use Rattle.sd_history.specs.Text.{bytes_of};
ghost use Rattle.sd_replay.specs.Tallies.{tally_of};
ghost use Rattle.sd_replay.specs.Standing.{HasRun, HasSeen, room_of};

use crate::event_output::EventOutput;
use crate::monitors::Monitors;
use crate::observe::acts_named;
use crate::{PlanList, ReplayFault, Tally};
use sd_device::Node;
use sd_device::msg::{Flight, Observer};
use sd_fleet::{Fleet, Outcome, Sent};
use sd_num::NoMemory;
use sd_plan::Plan;
use sd_plan::topo::Topology;
use sd_premise::Premises;
use sd_sched::{Event, read_line};
use std::alloc::Global;

/// A fleet and its monitors before any event. `Replay::new` calls this so that it has few exits at
/// which it drops what it owns.
fn fleet_and_monitors<N: Node>(
    alloc: Global,
    topo: &Topology,
    plans: &[Plan],
) -> Result<(Fleet<N>, Monitors), NoMemory>
    requires some { 1 ≤ length plans.now }
    requires count { length plans.now < 2 ^ 32 }
    requires sound { AreSound (network topo.now) plans.now }
    ensures fleet { IfOk result (λ made. (setting : Setting)
        → setting.net ≡ network topo.now → setting.plans ≡ plans.now
        → fleets.StandsFor N.Node made.0 setting []) }
    ensures monitors { IfOk result (λ made. (setting : Setting)
        → setting.net ≡ network topo.now → setting.plans ≡ plans.now → HasSeen made.1 setting []) }
{
    let fleet = Fleet::new(alloc, topo, plans)?;
    let monitors = Monitors::new(alloc, topo, plans)?;
    Ok((fleet, monitors))
}

/// What came of an event after which its device answers as before.
#[derive(Clone, Copy)]
pub(crate) struct QuickEvent {
    /// The flight that it received.
    taken: Option<Flight>,
    sent: Sent,
}

/// The replay of a schedule by a fleet of nodes of one kind.
///
/// An event costs what it costs the fleet and the premises, and a look at the device that it names.
/// Loops and roots are looked for where a parent, an acting or who counts changed, and a loop first
/// from the device that changed. A closing goes over all devices.
#[derive(Drop)]
pub struct Replay<N: Node, V: Observer> {
    fleet: Fleet<N>,
    monitors: Monitors,
    event_output: EventOutput,
    observer: V,
    /// What the last event came to that `advance` took: kept, so that no event makes a new one.
    latest: Outcome,
    ghost run: { ∥ HasRun N.Node V.Observer fleet monitors event_output observer ∥₁ },
}

impl<N: Node, V: Observer> Replay<N, V> {
    ghost use Rattle.sd_replay.specs.Replaying.{StandsFor, IsStepped, IsSteppedTo, IsTried, IsAnswered, IsLineFault, ticked, lines_in, may_take};
    ghost use Rattle.sd_replay.specs.Calm.{StaysCalm};

    /// A replay before any event, with the first plan in force. It takes the room for the lines of
    /// any one event. After `NoMemory` the topology, the plans and the observer are dropped.
    pub fn new(
        alloc: Global,
        topo: Topology,
        plans: PlanList,
        observer: V,
    ) -> Result<Replay<N, V>, NoMemory>
        requires some { 1 ≤ length plans }
        requires count { length plans < 2 ^ 32 }
        requires fit { OfEach (Fits (network topo)) plans }
        requires accepted { OfEach (IsAccepted (network topo)) plans }
        requires observer { V.stands observer [] }
        ensures stands { IfOk result (λ replay. (setting : Setting)
            → setting.net ≡ network topo → setting.plans ≡ plans
            → StandsFor N.Node V.Observer replay setting []) }
    {
        Replay::over(alloc, topo, plans.as_slice(), observer)
    }

    /// As `new`, over plans that are lent.
    pub fn over(
        alloc: Global,
        topo: Topology,
        plans: &[Plan],
        observer: V,
    ) -> Result<Replay<N, V>, NoMemory>
        requires some { 1 ≤ length plans.now }
        requires count { length plans.now < 2 ^ 32 }
        requires fit { OfEach (Fits (network topo)) plans.now }
        requires accepted { OfEach (IsAccepted (network topo)) plans.now }
        requires observer { V.stands observer [] }
        ensures stands { IfOk result (λ replay. (setting : Setting)
            → setting.net ≡ network topo → setting.plans ≡ plans.now
            → StandsFor N.Node V.Observer replay setting []) }
    {
        let event_output = EventOutput::new(alloc, topo)?;
        let (fleet, monitors) = fleet_and_monitors(alloc, &event_output.topology, plans)?;
        Ok(Replay {
            fleet,
            monitors,
            event_output,
            observer,
            latest: Outcome::nothing(),
        })
    }

    /// The event of a line happens, if there is one and it is accepted. A fault changes nothing.
    /// `Memory` is answered for a `tick`, a `recv` or an `ask` alone.
    pub fn step(&mut self, alloc: Global, line: &[u8]) -> Result<(), ReplayFault>
        ensures line { IfErr (event_of_line line.now)
            (λ fault. result ≡ Err (ReplayFault.Line fault)) }
        ensures refusal { IfOk (event_of_line line.now)
            (λ e. (setting : Setting) (run : List (NodeStep N))
            → StandsFor N.Node V.Observer self.old setting run
            → IfSome (refusal setting (steps_of run) e)
            (λ fault. result ≡ Err (ReplayFault.Apply fault))) }
        ensures accepted { OnOk result
            (IfOk (event_of_line line.now) (λ e. (setting : Setting) (run : List (NodeStep N))
            → StandsFor N.Node V.Observer self.old setting run
            → IsStepped N.Node V.Observer self.new setting run e)) }
        // while no premise is broken there is no alarm, where the nodes tell what devices tell
        ensures calm { OnOk result ((setting : Setting) (run : List (NodeStep N))
            → StandsFor N.Node V.Observer self.new setting run → StaysCalm setting (steps_of run)) }
        ensures refused { IfErr result (λ fault. (setting : Setting) (run : List (NodeStep N))
            → StandsFor N.Node V.Observer self.old setting run
            → StandsFor N.Node V.Observer self.new setting run
            × IsLineFault fault setting (steps_of run) line.now) }
    {
        // The event is lent where it was read.
        let read = read_line(line);
        match &read {
            Ok(event) => self.step_event(alloc, event),
            Err(fault) => Err(ReplayFault::Line(*fault)),
        }
    }

    /// An event happens, if it is accepted. A fault changes nothing. `Memory` is answered for a
    /// `tick`, a `recv` or an `ask` alone, before anything has changed.
    #[inline(always)]
    pub fn step_event(&mut self, alloc: Global, event: &Event) -> Result<(), ReplayFault>
        requires within { IsTrue (is_within event.now) }
        ensures answered { IsAnswered N.Node V.Observer self.old self.new event.now result }
        ensures accepted { OnOk result ((setting : Setting) (run : List (NodeStep N))
            → StandsFor N.Node V.Observer self.old setting run
            → IsStepped N.Node V.Observer self.new setting run event.now) }
    {
        match self.try_quick(alloc, event) {
            Some(_) => Ok(()),
            None => {
                // Of a copy, so that the event is written nowhere where it was a quick one.
                let event = *event;
                self.advance(alloc, &event)
            }
        }
    }

    /// As `step_event`. What the event came to is written into an outcome that the caller lends, and
    /// that a fault leaves as it was.
    #[inline(always)]
    pub fn step_outcome(
        &mut self,
        alloc: Global,
        event: &Event,
        outcome: &mut Outcome,
    ) -> Result<(), ReplayFault>
        requires within { IsTrue (is_within event.now) }
        ensures answered { IsAnswered N.Node V.Observer self.old self.new event.now result }
        ensures accepted { OnOk result ((setting : Setting) (run : List (NodeStep N))
            → StandsFor N.Node V.Observer self.old setting run
            → IsSteppedTo N.Node V.Observer self.new setting run event.now outcome.new) }
        ensures same { OnErr result (outcome.new ≡ outcome.old) }
    {
        if self.try_quick_to(alloc, event, outcome) {
            return Ok(());
        }
        match self.advance(alloc, event) {
            Ok(()) => {
                *outcome = self.latest;
                Ok(())
            }
            Err(fault) => Err(fault),
        }
    }

    /// An event happens after which its device answers as before, if it is one, as nearly all are. It
    /// is for `advance` where it is another or is refused, where a window is open, and where there is
    /// no room for its messages.
    // Numbers go from the fleet to the premises and the lines; no outcome is made.
    #[inline(always)]
    fn try_quick(&mut self, alloc: Global, event: &Event) -> Option<QuickEvent>
        requires within { IsTrue (is_within event.now) }
        ensures { IsTried N.Node V.Observer self.old self.new event.now result }
    {
        match *event {
            Event::Tick {
                reference,
                device,
                counter,
            } => match self.tick(alloc, reference, device, counter) {
                Some(sent) => Some(QuickEvent { taken: None, sent }),
                None => None,
            },
            Event::Recv {
                reference,
                device,
                counter,
                message,
            } => self.hear(alloc, reference, device, counter, message),
            _ => None,
        }
    }

    /// As `try_quick`, of a tick. It tells what the device sends.
    #[inline(always)]
    fn tick(&mut self, alloc: Global, reference: u64, d: u32, counter: u64) -> Option<Sent>
        requires within { IsTrue (is_within (events_of.Tick reference d counter)) }
        ensures { IsTried N.Node V.Observer self.old self.new
            (events_of.Tick reference d counter) (option_map ticked result) }
    {
        match self.rest(reference, d, counter) {
            Some(sent) => Some(sent),
            None => self.emit(alloc, reference, d, counter),
        }
    }

    /// As `tick`, where its device rests.
    #[inline(always)]
    fn rest(&mut self, reference: u64, d: u32, counter: u64) -> Option<Sent>
        requires within { IsTrue (is_within (events_of.Tick reference d counter)) }
        ensures { IsTried N.Node V.Observer self.old self.new
            (events_of.Tick reference d counter) (option_map ticked result) }
    {
        if !self.fleet.rest(reference, d, counter) {
            return None;
        }
        let trouble = self.monitors.rest(reference, d, counter);
        self.event_output.note(&trouble, &None, reference, false);
        Some(Sent { first: 0, count: 0 })
    }

    /// As `tick`, where its device acts as root.
    // Never a part of its caller: few ticks send. So it tells no flight, which is large.
    #[inline(never)]
    fn emit(&mut self, alloc: Global, reference: u64, d: u32, counter: u64) -> Option<Sent>
        requires within { IsTrue (is_within (events_of.Tick reference d counter)) }
        ensures { IsTried N.Node V.Observer self.old self.new
            (events_of.Tick reference d counter) (option_map ticked result) }
    {
        if !self.ready_for(alloc, d) {
            return None;
        }
        let Some(sent) = self.fleet.emit(reference, d, counter) else {
            return None;
        };
        self.monitors.collect(&self.fleet, sent);
        let trouble = self.monitors.emit(reference, d, counter);
        self.event_output.note(&trouble, &None, reference, false);
        Some(sent)
    }

    /// As `try_quick`, of a receipt.
    #[inline(always)]
    fn hear(
        &mut self,
        alloc: Global,
        reference: u64,
        d: u32,
        counter: u64,
        message: u64,
    ) -> Option<QuickEvent>
        requires within { IsTrue (is_within (events_of.Recv reference d counter message)) }
        ensures { IsTried N.Node V.Observer self.old self.new
            (events_of.Recv reference d counter message) result }
    {
        if !self.ready_for(alloc, d) {
            return None;
        }
        let Some(heard) = self.fleet.hear(reference, d, counter, message) else {
            return None;
        };
        self.monitors.collect(&self.fleet, heard.sent);
        let trouble = self.monitors.hear(reference, d, counter, &heard.flight);
        self.event_output.note(&trouble, &None, reference, false);
        Some(QuickEvent {
            taken: Some(heard.flight),
            sent: heard.sent,
        })
    }

    /// Makes the room for what a device sends at a call while no window is open, or answers that
    /// there is none.
    #[inline(always)]
    fn ready_for(&mut self, alloc: Global, d: u32) -> bool
        ensures fleet { IsTrue result
            → ends_in self.new.fleet.fabric d ≤ self.new.fleet.fabric.book.room }
        ensures monitors { IsTrue result
            → ends_in self.new.fleet.fabric d ≤ room_of self.new.monitors }
        ensures stands { (setting : Setting) (run : List (NodeStep N))
            → StandsFor N.Node V.Observer self.old setting run
            → StandsFor N.Node V.Observer self.new setting run }
    {
        match self.fleet.ready(alloc, d) {
            Ok(most) => self.monitors.ready(alloc, most).is_ok(),
            Err(_) => false,
        }
    }

    /// As `try_quick`. Where the event happens, what it came to is written into an outcome that the
    /// caller lends.
    #[inline(always)]
    fn try_quick_to(&mut self, alloc: Global, event: &Event, outcome: &mut Outcome) -> bool
        requires within { IsTrue (is_within event.now) }
        ensures accepted { IsTrue result → (setting : Setting) (run : List (NodeStep N))
            → StandsFor N.Node V.Observer self.old setting run
            → IsSteppedTo N.Node V.Observer self.new setting run event.now outcome.new }
        ensures stands { result ≡ false → (setting : Setting) (run : List (NodeStep N))
            → StandsFor N.Node V.Observer self.old setting run
            → StandsFor N.Node V.Observer self.new setting run }
        ensures same { result ≡ false → outcome.new ≡ outcome.old }
    {
        let acted = acts_named(&self.fleet, event);
        let Some(quick) = self.try_quick(alloc, event) else {
            return false;
        };
        *outcome = Outcome {
            acted,
            taken: quick.taken,
            first_sent: quick.sent.first,
            sent: quick.sent.count,
            ..Outcome::nothing()
        };
        true
    }

    /// As `step_event`, of any event. What it came to is kept.
    // Never a part of its caller: few events come here.
    #[inline(never)]
    fn advance(&mut self, alloc: Global, event: &Event) -> Result<(), ReplayFault>
        requires within { IsTrue (is_within event.now) }
        ensures answered { IsAnswered N.Node V.Observer self.old self.new event.now result }
        ensures accepted { OnOk result ((setting : Setting) (run : List (NodeStep N))
            → StandsFor N.Node V.Observer self.old setting run
            → IsSteppedTo N.Node V.Observer self.new setting run event.now self.new.latest) }
    {
        let most = self.fleet.prepare(alloc, event)?;
        let Ok(()) = self.ready(alloc, event, most) else {
            return Err(ReplayFault::Memory);
        };
        self.fleet.happen(event, &mut self.latest);
        let trouble = self.monitors.look(&self.fleet, event, &self.latest);
        let reference = event.reference();
        self.event_output.note(&trouble, &self.latest.report, reference, self.latest.ended);
        if let Some((d, report)) = self.latest.report {
            let line = self.event_output.tally.events;
            self.observer.seen(line, d, reference, report);
        }
        Ok(())
    }

    /// Makes the room that the event needs beside the fleet's own. It sends at most this many messages.
    fn ready(&mut self, alloc: Global, event: &Event, most: usize) -> Result<(), NoMemory>
        requires most { most ≡ most_sent_in self.old.fleet.fabric event.now }
        ensures room { OnOk result (most ≤ room_of self.new.monitors) }
        ensures observer { OnOk result (IsTrue (is_ask event.now) → 1 ≤ V.room self.new.observer) }
        ensures memory { OnErr result (IsTrue (may_take event.now)) }
        ensures fleet { self.new.fleet ≡ self.old.fleet }
        ensures event_output { self.new.event_output ≡ self.old.event_output }
        ensures has_seen { (setting : Setting) (steps : List Step)
            → HasSeen self.old.monitors setting steps → HasSeen self.new.monitors setting steps }
        ensures told { (reports : List ReportAt) → V.stands self.old.observer reports
            → V.stands self.new.observer reports }
    {
        match *event {
            Event::Tick { .. } | Event::Recv { .. } => self.monitors.ready(alloc, most),
            Event::Ask { .. } => self.observer.ready(alloc),
            _ => Ok(()),
        }
    }

    /// The lines of the last event that was accepted.
    pub fn lines(&self) -> &[u8]
        ensures lines { result.now ≡ lines_in self.now }
        ensures exact { (setting : Setting) (run : List (NodeStep N))
            → StandsFor N.Node V.Observer self.now setting run
            → result.now ≡ bytes_of setting (steps_of run) }
    {
        self.event_output.lines.as_bytes()
    }

    /// Whether the schedule has ended.
    pub fn ended(&self) -> bool
        ensures { (setting : Setting) (run : List (NodeStep N))
            → StandsFor N.Node V.Observer self.now setting run
            → result ≡ after_end (seen_of (steps_of run)) }
    {
        self.event_output.ended
    }

    /// How much has happened so far.
    pub fn tally(&self) -> Tally
        ensures { (setting : Setting) (run : List (NodeStep N))
            → StandsFor N.Node V.Observer self.now setting run
            → result ≡ tally_of setting (steps_of run) }
    {
        self.event_output.tally
    }

    /// The fleet that is driven.
    pub fn fleet(&self) -> &Fleet<N>
        ensures lent { result.now ≡ self.now.fleet }
        ensures stands { (setting : Setting) (run : List (NodeStep N))
            → StandsFor N.Node V.Observer self.now setting run
            → fleets.StandsFor N.Node result.now setting run }
    {
        &self.fleet
    }

    /// The premises that are judged.
    pub fn premises(&self) -> &Premises
        ensures lent { result.now ≡ self.now.monitors.premises }
        ensures stands { (setting : Setting) (run : List (NodeStep N))
            → StandsFor N.Node V.Observer self.now setting run
            → premises.StandsFor result.now setting (seen_of (steps_of run)) }
    {
        self.monitors.premises()
    }

    /// The observer of the reports.
    pub fn observer(&self) -> &V
        ensures { result.now ≡ self.now.observer }
    {
        &self.observer
    }

    /// The topology.
    pub fn topology(&self) -> &Topology
        ensures { (setting : Setting) (run : List (NodeStep N))
            → StandsFor N.Node V.Observer self.now setting run → network result.now ≡ setting.net }
    {
        &self.event_output.topology
    }
}
