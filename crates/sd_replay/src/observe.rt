//! What the monitors see of an event in the fleet: the flights that it sent and that reach, and how
//! devices stand after it.
ghost use Rattle.std.specs.Prelude.{◌≡◌, ◌<◌, ◌≤◌, ◌+◌, ◌^◌, ◌∷◌, ◌++◌, ℕ, List, length, filter, option_to_list, IfSome};
ghost use Rattle.std.specs.Vec.{vec_capacity};
ghost use Rattle.sd_sched.specs.declared.Event.{Event as AnyEvent};
ghost use Rattle.sd_sched.specs.Events.{device_of};
ghost use Rattle.sd_history.specs.World.{Setting};
ghost use Rattle.sd_history.specs.Steps.{acted_by};
ghost use Rattle.sd_history.specs.Nodes.{NodeStep, steps_of};
ghost use Rattle.sd_fleet.specs.Standing.{StandsFor, IsAccepted};
ghost use Rattle.sd_fleet.specs.declared.Outcome.{Outcome as AnyOutcome};
ghost use Rattle.sd_replay.specs.Standing.{parent_row_in, IsSet, IsParentTable, IsStepOf};
ghost use Rattle.sd_replay.specs.Sights.{AreSentBy};

use crate::watch::parent_table::{ParentRow, ParentTable};
use sd_device::Node;
use sd_device::msg::Flight;
use sd_fleet::{Fleet, Sent};
use sd_sched::Event;

/// How a device stands: nobody's follower and no root where it does not count as live.
pub(crate) fn parent_row_of<N: Node>(fleet: &Fleet<N>, d: u32) -> ParentRow
    requires { d < length fleet.now.fabric.net.devices }
    ensures { (setting : Setting) (run : List (NodeStep N))
        → StandsFor N.Node fleet.now setting run → result ≡ parent_row_in setting (steps_of run) d }
{
    if !fleet.is_counted(d) {
        return ParentRow {
            parent: None,
            acts: false,
        };
    }
    ParentRow {
        parent: fleet.parent(d),
        acts: fleet.acts(d),
    }
}

/// Whether an event names a device that acts as root.
#[inline(always)]
pub(crate) fn acts_named<N: Node>(fleet: &Fleet<N>, event: &Event) -> bool
    ensures { (setting : Setting) (run : List (NodeStep N))
        → StandsFor N.Node fleet.now setting run
        → IfSome (device_of event.now) (λ d. d < length setting.net.devices)
        → result ≡ acted_by (steps_of run) event.now }
{
    match event.device() {
        Some(d) => d < fleet.devices() && fleet.acts(d),
        None => false,
    }
}

/// Keeps how a device stands after the latest event.
#[inline(always)]
fn keep_parent_row<N: Node>(parent_table: &mut ParentTable, fleet: &Fleet<N>, d: u32)
    requires device { d < length fleet.now.fabric.net.devices }
    requires parents { d < length parent_table.old.parents }
    requires acting { d < length parent_table.old.acting }
    ensures parent_row { (setting : Setting) (run : List (NodeStep N))
        → StandsFor N.Node fleet.now setting run
        → IsSet parent_table.old parent_table.new d (parent_row_in setting (steps_of run) d) }
    ensures parents { length parent_table.new.parents ≡ length parent_table.old.parents }
    ensures acting { length parent_table.new.acting ≡ length parent_table.old.acting }
{
    parent_table.set(d, parent_row_of(fleet, d));
}

/// Keeps how all devices stand after the latest event.
fn keep_all<N: Node>(parent_table: &mut ParentTable, fleet: &Fleet<N>)
    requires parents { length parent_table.old.parents ≡ length fleet.now.fabric.net.devices }
    requires acting { length parent_table.old.acting ≡ length fleet.now.fabric.net.devices }
    ensures { (setting : Setting) (run : List (NodeStep N))
        → StandsFor N.Node fleet.now setting run
        → IsParentTable parent_table.new setting (steps_of run) }
{
    for d in 0..fleet.devices() {
        keep_parent_row(parent_table, fleet, d);
    }
}

/// Keeps how devices stand after an event: the one that it names, and all where a window closed.
pub(crate) fn update_rows<N: Node>(
    parent_table: &mut ParentTable,
    fleet: &Fleet<N>,
    named: Option<u32>,
    closed: bool,
)
    requires device { IfSome named (λ d. d < length fleet.now.fabric.net.devices) }
    requires parents { length parent_table.old.parents ≡ length fleet.now.fabric.net.devices }
    requires acting { length parent_table.old.acting ≡ length fleet.now.fabric.net.devices }
    ensures { (setting : Setting) (run : List (NodeStep N))
        (made : IsStepOf N.Node fleet.now setting run named closed)
        → IsParentTable parent_table.old setting (steps_of run)
        → IsParentTable parent_table.new setting (made.next.step ∷ steps_of run) }
{
    if closed {
        keep_all(parent_table, fleet);
    } else if let Some(d) = named {
        keep_parent_row(parent_table, fleet, d);
    }
}

/// Collects the flights of these messages that reach, in place of those collected before, in room
/// that was made. The latest event sent the messages.
#[inline(always)]
pub(crate) fn collect<N: Node>(fleet: &Fleet<N>, messages: Sent, sent: &mut Vec<Flight>)
    requires room { messages.count ≤ vec_capacity sent.old }
    requires numbers { messages.first + messages.count < 2 ^ 64 }
    ensures flights { (setting : Setting) (run : List (NodeStep N)) (event : AnyEvent)
        (outcome : AnyOutcome) (accepted : IsAccepted N.Node fleet.now setting run event outcome)
        → AreSentBy messages outcome
        → sent.new.items ≡ filter (λ f. f.reaches) accepted.next.step.sent }
    ensures few { length sent.new.items ≤ messages.count }
    ensures capacity { vec_capacity sent.old ≤ vec_capacity sent.new }
{
    sent.clear();
    for i in 0..messages.count {
        fleet.push_flight(messages.first + u64::from(i), sent);
    }
}
