//! What an event brings that was not there before: a loop of parents, several devices that act as
//! root.
ghost use Rattle.std.specs.Prelude.{◌≡◌, ◌<◌, ◌∷◌, List, length, if◌then◌else◌, is_some, None, IsTrue, IfSome};
ghost use Rattle.sd_history.specs.World.{Setting};
ghost use Rattle.sd_history.specs.Nodes.{NodeStep, steps_of};
ghost use Rattle.sd_fleet.specs.Standing.{StandsFor};
ghost use Rattle.sd_replay.specs.Standing.{parent_row_in, parent_row_at, IsParentTable, IsStepOf, HasAlarms};

use crate::observe::{parent_row_of, update_rows};
use crate::watch::parent_table::{ParentRow, ParentTable};
use sd_device::Node;
use sd_fleet::Fleet;

/// What is new with an event.
#[derive(Clone, Copy)]
pub(crate) struct Alarms {
    /// The least device on a loop of parents, where there was no loop before.
    pub(crate) looped: Option<u32>,
    /// The two least devices that act as root, where fewer than two acted before.
    pub(crate) roots: Option<(u32, u32)>,
}

/// Nothing is new.
pub(crate) const NO_ALARMS: Alarms = Alarms {
    looped: None,
    roots: None,
};

/// What there is now, where there was nothing of its kind before.
fn newly<T: Copy>(before: Option<T>, now: Option<T>) -> Option<T>
    ensures { result ≡ (if is_some before then None else now) }
{
    match before {
        Some(_) => None,
        None => now,
    }
}

/// Whether two rows say the same.
#[inline(always)]
fn same_row(a: ParentRow, b: ParentRow) -> bool
    ensures parent { IsTrue result → a.parent ≡ b.parent }
    ensures acts { IsTrue result → a.acts ≡ b.acts }
{
    a.parent == b.parent && a.acts == b.acts
}

/// Whether a device is kept as it stands after the latest event.
#[inline(always)]
fn is_kept<N: Node>(parent_table: &ParentTable, fleet: &Fleet<N>, d: u32) -> bool
    requires device { d < length fleet.now.fabric.net.devices }
    requires parents { d < length parent_table.now.parents }
    requires acting { d < length parent_table.now.acting }
    ensures { IsTrue result → (setting : Setting) (run : List (NodeStep N))
        → StandsFor N.Node fleet.now setting run
        → parent_row_at parent_table.now d ≡ parent_row_in setting (steps_of run) d }
{
    same_row(parent_table.row(d), parent_row_of(fleet, d))
}

/// Whether all devices are kept as they stand after an event, as nearly always: no window closed
/// with it, and the device that it names is kept so.
#[inline(always)]
fn all_kept<N: Node>(
    parent_table: &ParentTable,
    fleet: &Fleet<N>,
    named: Option<u32>,
    closed: bool,
) -> bool
    requires device { IfSome named (λ d. d < length fleet.now.fabric.net.devices) }
    requires parents { length parent_table.now.parents ≡ length fleet.now.fabric.net.devices }
    requires acting { length parent_table.now.acting ≡ length fleet.now.fabric.net.devices }
    ensures { IsTrue result → (setting : Setting) (run : List (NodeStep N))
        (made : IsStepOf N.Node fleet.now setting run named closed)
        → IsParentTable parent_table.now setting (steps_of run)
        → IsParentTable parent_table.now setting (made.next.step ∷ steps_of run) }
{
    if closed {
        return false;
    }
    match named {
        Some(d) => is_kept(parent_table, fleet, d),
        None => true,
    }
}

/// Keeps how devices stand after an event, and tells what is new with it. With nearly all events
/// each device stands as it is kept, and nothing is new.
#[inline(always)]
pub(crate) fn alarms_of<N: Node>(
    parent_table: &mut ParentTable,
    fleet: &Fleet<N>,
    named: Option<u32>,
    closed: bool,
) -> Alarms
    requires device { IfSome named (λ d. d < length fleet.now.fabric.net.devices) }
    requires parents { length parent_table.old.parents ≡ length fleet.now.fabric.net.devices }
    requires acting { length parent_table.old.acting ≡ length fleet.now.fabric.net.devices }
    ensures { (setting : Setting) (run : List (NodeStep N))
        (made : IsStepOf N.Node fleet.now setting run named closed)
        → IsParentTable parent_table.old setting (steps_of run)
        → HasAlarms parent_table.new result setting made.next.step (steps_of run) }
{
    if all_kept(parent_table, fleet, named, closed) {
        return NO_ALARMS;
    }
    alarms_anew(parent_table, fleet, named, closed)
}

/// Keeps how devices stand after any event, and compares what there is then with what there was.
fn alarms_anew<N: Node>(
    parent_table: &mut ParentTable,
    fleet: &Fleet<N>,
    named: Option<u32>,
    closed: bool,
) -> Alarms
    requires device { IfSome named (λ d. d < length fleet.now.fabric.net.devices) }
    requires parents { length parent_table.old.parents ≡ length fleet.now.fabric.net.devices }
    requires acting { length parent_table.old.acting ≡ length fleet.now.fabric.net.devices }
    ensures { (setting : Setting) (run : List (NodeStep N))
        (made : IsStepOf N.Node fleet.now setting run named closed)
        → IsParentTable parent_table.old setting (steps_of run)
        → HasAlarms parent_table.new result setting made.next.step (steps_of run) }
{
    let looped = parent_table.first_loop();
    let roots = parent_table.two_acting();
    update_rows(parent_table, fleet, named, closed);
    Alarms {
        looped: newly(looped, parent_table.first_loop()),
        roots: newly(roots, parent_table.two_acting()),
    }
}
