//! What the greedy rule finds by itself: the plan from the first root from which it is accepted.
ghost use Rattle.std.specs.Prelude.{◌≡◌, ◌<◌, None, Some, length, IfOk, IfSome};
ghost use Rattle.sd_search.specs.Finds.{IsTrial};
ghost use Rattle.sd_planner.specs.Absences.{IsAbsentOf};
ghost use Rattle.sd_plan.specs.topo.Topologies.{network};

use sd_num::NoMemory;
use sd_plan::topo::Topology;
use sd_plan::{Absent, Plan};
use sd_planner::{Planned, plan_for};
use std::alloc::Global;

/// The greedy plan from a root, if it is accepted.
fn try_root(
    alloc: Global,
    topo: &Topology,
    absent: &Absent,
    root: u32,
) -> Result<Option<Plan>, NoMemory>
    requires absent { IsAbsentOf (network topo.now) absent.now }
    requires root { root < length (network topo.now).devices }
    ensures { IfOk result (IsTrial (network topo.now) absent.now (Some root)) }
{
    match plan_for(alloc, topo, root, absent)? {
        Planned::Plan(plan) => Ok(Some(plan)),
        Planned::NoPlan(_, _) => Ok(None),
    }
}

/// The greedy plan from the first candidate from which it is accepted, if there is one.
fn try_candidates(alloc: Global, topo: &Topology, absent: &Absent) -> Result<Option<Plan>, NoMemory>
    requires absent { IsAbsentOf (network topo.now) absent.now }
    ensures { IfOk result (IsTrial (network topo.now) absent.now None) }
{
    for root in topo.roots() {
        if let Some(plan) = try_root(alloc, topo, absent, *root)? {
            return Ok(Some(plan));
        }
    }
    Ok(None)
}

/// The first accepted greedy plan from the root that is given, or else from the candidates.
pub(crate) fn try_greedy(
    alloc: Global,
    topo: &Topology,
    absent: &Absent,
    root: Option<u32>,
) -> Result<Option<Plan>, NoMemory>
    requires absent { IsAbsentOf (network topo.now) absent.now }
    requires root { IfSome root (λ r. r < length (network topo.now).devices) }
    ensures { IfOk result (IsTrial (network topo.now) absent.now root) }
{
    match root {
        Some(root) => try_root(alloc, topo, absent, root),
        None => try_candidates(alloc, topo, absent),
    }
}
