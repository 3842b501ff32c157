//! The ancestor condition: nobody is above their own backup parent.
ghost use Rattle.std.specs.Prelude.{◌≡◌, ◌<◌, length, find, not, IsTrue};
ghost use Rattle.sd_checker.specs.Ancestors.{is_above};
ghost use Rattle.sd_plan.specs.Plans as plans;
ghost use Rattle.sd_plan.specs.Structure as structure;
ghost use Rattle.sd_plan.specs.topo.Topologies.{network};

use sd_plan::{IndexedPlan, backup_of};

/// Whether a device is on the short walk of a member: its walk cut at the first of backup root and
/// root, also where that is the member itself.
fn is_on_short_walk(planned: IndexedPlan<'_>, x: u32, d: u32) -> bool
    requires device { d < length (network planned.topo.now).devices }
    requires range { x < length (network planned.topo.now).devices }
    requires member { IsTrue (plans.is_member planned.plan.now x) }
    ensures { result ≡ is_above (network planned.entry.topo.now) planned.entry.plan.now x d }
{
    if d == x {
        return true;
    }
    if x == planned.plan.root || x == planned.plan.backup_root {
        return false;
    }
    planned.index.epath_has_device(x, d)
}

/// Whether a device is not above its backup parent, if it has one.
fn is_no_ancestor(planned: IndexedPlan<'_>, d: u32) -> bool
    requires device { d < length (network planned.topo.now).devices }
    ensures { result ≡ structure.is_no_ancestor
        (network planned.entry.topo.now) planned.entry.plan.now d }
{
    let Some(hop) = backup_of(planned.plan, d) else {
        return true;
    };
    if d == planned.plan.backup_root {
        !planned.index.on_walk(hop.parent, d)
    } else {
        !is_on_short_walk(planned, hop.parent, d)
    }
}

/// The lowest device that is above its own backup parent.
pub(crate) fn ancestor_breach(planned: IndexedPlan<'_>) -> Option<u32>
    ensures { result ≡ structure.ancestor_breach
        (network planned.entry.topo.now) planned.entry.plan.now }
{
    for d in 0..planned.topo.devices() {
        if !is_no_ancestor(planned, d) {
            return Some(d);
        }
    }
    None
}
