//! Who looks on: judges the premises, and looks for loops of parents and several roots.
ghost use Rattle.std.specs.Prelude.{◌≡◌, ◌<◌, ◌≤◌, ◌+◌, ◌^◌, List, [], ◌∷◌, length, filter, OnOk, IfOk};
ghost use Rattle.sd_plan.specs.topo.Topologies.{network};
ghost use Rattle.sd_history.specs.World.{Setting};
ghost use Rattle.sd_history.specs.Steps.{Step};
ghost use Rattle.sd_history.specs.Nodes.{NodeStep, steps_of};
ghost use Rattle.sd_history.specs.Lines.{lines_of};
ghost use Rattle.sd_sched.specs.declared.Event.{Event as AnyEvent};
ghost use Rattle.sd_fleet.specs.Standing.{IsAccepted};
ghost use Rattle.sd_fleet.specs.declared.Outcome.{Outcome as AnyOutcome};
ghost use Rattle.sd_world.specs.membership.Plans.{AreSound};
ghost use Rattle.sd_replay.specs.lines.Findings.{IsOf, found_lines};
ghost use Rattle.sd_replay.specs.Sights.{AreSentBy};
ghost use Rattle.sd_replay.specs.Troubles.{found_with};

use crate::alarms::{NO_ALARMS, alarms_of};
use crate::judging::judge;
use crate::observe::collect;
use crate::trouble::Trouble;
use crate::watch::parent_table::ParentTable;
use sd_device::Node;
use sd_device::msg::Flight;
use sd_fleet::{Fleet, Outcome, Sent};
use sd_num::NoMemory;
use sd_plan::Plan;
use sd_plan::topo::Topology;
use sd_premise::Premises;
use sd_sched::Event;
use std::alloc::Global;

/// What is kept to judge events: the premises, and how each device stood after the last one.
#[derive(Drop)]
pub(crate) struct Monitors {
    premises: Premises,
    parent_table: ParentTable,
    /// The flights of one event, of which there is room for those that the next may send.
    sent: Vec<Flight>,
}

impl Monitors {
    ghost use Rattle.sd_replay.specs.Standing.{HasSeen, HasStep, IsQuickStep, CanLook, Looks, room_of, sent_room};
    ghost use Rattle.sd_premise.specs.Calm.{IsCalmTick, IsCalmReceipt};

    /// Before any event.
    pub(crate) fn new(alloc: Global, topo: &Topology, plans: &[Plan]) -> Result<Monitors, NoMemory>
        requires some { 1 ≤ length plans.now }
        requires count { length plans.now < 2 ^ 32 }
        requires sound { AreSound (network topo.now) plans.now }
        ensures stands { IfOk result (λ monitors. (setting : Setting)
            → setting.net ≡ network topo.now → setting.plans ≡ plans.now
            → HasSeen monitors setting []) }
    {
        let parent_table = ParentTable::new(alloc, topo.devices())?;
        let premises = Premises::new(alloc, topo, plans)?;
        Ok(Monitors {
            premises,
            parent_table,
            sent: Vec::new(alloc),
        })
    }

    /// The premises.
    pub(crate) fn premises(&self) -> &Premises
        ensures { result.now ≡ self.now.premises }
    {
        &self.premises
    }

    /// Makes room for an event that sends this many messages. Only this takes memory.
    #[inline(always)]
    pub(crate) fn ready(&mut self, alloc: Global, sent: usize) -> Result<(), NoMemory>
        ensures room { OnOk result (sent ≤ room_of self.new) }
        ensures grows { room_of self.old ≤ room_of self.new }
        ensures stands { (setting : Setting) (steps : List Step) → HasSeen self.old setting steps
            → HasSeen self.new setting steps }
    {
        // Most devices have nobody below them.
        if sent == 0 {
            return Ok(());
        }
        self.sent.clear();
        let Ok(()) = self.sent.reserve(sent) else {
            return Err(NoMemory);
        };
        self.premises.ready(alloc, sent)
    }

    /// Looks at an event that has just happened in the fleet, and tells the trouble that it brings.
    /// It takes no memory.
    #[inline(always)]
    pub(crate) fn look<N: Node>(
        &mut self,
        fleet: &Fleet<N>,
        event: &Event,
        outcome: &Outcome,
    ) -> Trouble
        requires step { ∥ HasStep N.Node self.old fleet.now event.now outcome.now ∥₁ }
        requires room { outcome.now.sent ≤ room_of self.old }
        requires numbers { outcome.now.first_sent + outcome.now.sent < 2 ^ 64 }
        ensures stands { (setting : Setting) (run : List (NodeStep N))
            (accepted : IsAccepted N.Node fleet.now setting run event.now outcome.now)
            → HasSeen self.old setting (steps_of run)
            → HasSeen self.new setting (accepted.next.step ∷ steps_of run) }
        ensures found { (setting : Setting) (run : List (NodeStep N))
            (accepted : IsAccepted N.Node fleet.now setting run event.now outcome.now)
            → HasSeen self.old setting (steps_of run)
            → found_lines (found_with result event.now outcome.now)
            ≡ lines_of setting (accepted.next.step ∷ steps_of run) }
        ensures devices { (setting : Setting) (run : List (NodeStep N))
            → IsAccepted N.Node fleet.now setting run event.now outcome.now
            → HasSeen self.old setting (steps_of run)
            → IsOf setting.net (found_with result event.now outcome.now) }
    {
        let messages = Sent {
            first: outcome.first_sent,
            count: outcome.sent,
        };
        collect(fleet, messages, &mut self.sent);
        let broken = judge(&mut self.premises, event, outcome, &self.sent);
        let alarms = alarms_of(
            &mut self.parent_table,
            fleet,
            event.device(),
            outcome.closed,
        );
        Trouble { broken, alarms }
    }

    /// Collects the flights of these messages that reach. The latest event of the fleet sent them.
    #[inline(always)]
    pub(crate) fn collect<N: Node>(&mut self, fleet: &Fleet<N>, messages: Sent)
        requires room { messages.count ≤ room_of self.old }
        requires numbers { messages.first + messages.count < 2 ^ 64 }
        ensures flights { (setting : Setting) (run : List (NodeStep N)) (event : AnyEvent)
            (outcome : AnyOutcome)
            (accepted : IsAccepted N.Node fleet.now setting run event outcome)
            → AreSentBy messages outcome
            → self.new.sent.items ≡ filter (λ f. f.reaches) accepted.next.step.sent }
        ensures room { length self.new.sent.items ≤ sent_room self.new }
        ensures stands { (setting : Setting) (steps : List Step) → HasSeen self.old setting steps
            → HasSeen self.new setting steps }
    {
        collect(fleet, messages, &mut self.sent);
    }

    /// As `look`, of a tick at which its device rests. The device stands as it is kept, so there is
    /// no new loop and no new root.
    #[inline(always)]
    pub(crate) fn rest(&mut self, reference: u64, d: u32, counter: u64) -> Trouble
        requires step { ∥ CanLook self.old
            (IsQuickStep (λ s. IsCalmTick s reference d counter []) reference d) ∥₁ }
        ensures { Looks (IsQuickStep (λ s. IsCalmTick s reference d counter []) reference d)
            reference self.old self.new result }
    {
        Trouble {
            broken: self.premises.tick(reference, d, counter, &[]),
            alarms: NO_ALARMS,
        }
    }

    /// As `look`, of a tick after which its device stands as it is kept. Its flights were collected.
    pub(crate) fn emit(&mut self, reference: u64, d: u32, counter: u64) -> Trouble
        requires step { ∥ CanLook self.old
            (IsQuickStep (λ s. IsCalmTick s reference d counter self.old.sent.items) reference d) ∥₁ }
        requires room { length self.old.sent.items ≤ sent_room self.old }
        ensures { Looks
            (IsQuickStep (λ s. IsCalmTick s reference d counter self.old.sent.items) reference d)
            reference self.old self.new result }
    {
        let sent = self.sent.as_slice();
        Trouble {
            broken: self.premises.tick(reference, d, counter, sent),
            alarms: NO_ALARMS,
        }
    }

    /// As `look`, of the receipt of this flight after which its device stands as it is kept. Its
    /// flights were collected.
    #[inline(always)]
    pub(crate) fn hear(&mut self, reference: u64, d: u32, counter: u64, flight: &Flight) -> Trouble
        requires step { ∥ CanLook self.old (IsQuickStep
            (λ s. IsCalmReceipt s reference d counter flight.now self.old.sent.items) reference d) ∥₁ }
        requires room { length self.old.sent.items ≤ sent_room self.old }
        ensures { Looks (IsQuickStep
            (λ s. IsCalmReceipt s reference d counter flight.now self.old.sent.items) reference d)
            reference self.old self.new result }
    {
        let sent = self.sent.as_slice();
        Trouble {
            broken: self.premises.receive(reference, d, counter, flight, sent),
            alarms: NO_ALARMS,
        }
    }
}
