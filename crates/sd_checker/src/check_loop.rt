//! The loop condition: whatever one domain fails, and whichever of the devices that it hits have
//! moved to their backups, parent links close no loop.
ghost use Rattle.std.specs.Prelude.{◌≡◌, None, IsTrue, IfOk};
ghost use Rattle.sd_num.specs.Lists.{ascends};
ghost use Rattle.sd_checker.specs.check_loop.Graphs as graphs;
ghost use Rattle.sd_checker.specs.check_loop.Answered.{LoopShown};
ghost use Rattle.sd_checker.specs.check_loop.Shown.{AnswersFor};
ghost use Rattle.sd_plan.specs.domain.Lone.{IsDomain};
ghost use Rattle.sd_checker.specs.check_hit.Outages.{net_of, plan_of};
ghost use Rattle.sd_plan.specs.IndexedPlan.{IsIndexOf};
ghost use Rattle.sd_plan.specs.Plans.{Fits};
ghost use Rattle.sd_plan.specs.Structure.{structure_breach};
ghost use Rattle.sd_plan.specs.topo.Topologies.{network};

mod cycle;
mod graph;
mod marking;

use crate::check_hit::{Impact, Outage};
use cycle::{cycle_from, first_endless};
use graph::graph_of;
use marking::marks_of;
use sd_num::NoMemory;
use sd_plan::domain::DomainId;
use sd_plan::topo::Topology;
use sd_plan::{DeviceList, IndexedPlan, Plan, WalkIndex};
use std::alloc::Global;

/// The loop that a domain may bring about: nothing where there is none, else the cycle that the
/// rules show. It begins at the lowest device from which some walk never ends, goes each time to
/// the lowest such successor, and is cut to the devices from the first that comes again on.
pub fn loop_breach(
    alloc: Global,
    topo: &Topology,
    plan: &Plan,
    domain: DomainId,
) -> Result<Option<DeviceList>, NoMemory>
    requires fits { Fits (network topo.now) plan.now }
    requires structured { structure_breach (network topo.now) plan.now ≡ None }
    requires domain { IsDomain (network topo.now) domain }
    ensures { IfOk result (LoopShown (network topo.now) plan.now domain) }
{
    let index = WalkIndex::new(alloc, topo, plan)?;
    loop_breach_in(alloc, topo, plan, &index, domain)
}

/// What `loop_breach` answers, by an index of this plan, which serves all domains.
pub fn loop_breach_in(
    alloc: Global,
    topo: &Topology,
    plan: &Plan,
    index: &WalkIndex,
    domain: DomainId,
) -> Result<Option<DeviceList>, NoMemory>
    requires domain { IsDomain (network topo.now) domain }
    requires indexed { IsIndexOf (network topo.now) plan.now index.now }
    ensures { IfOk result (LoopShown (network topo.now) plan.now domain) }
{
    let planned = IndexedPlan { topo, plan, index };
    let mut impact = Impact::new(alloc, topo)?;
    impact.strike(alloc, planned, domain)?;
    loop_breach_of(alloc, &impact.outage(planned, domain))
}

/// What `loop_breach` answers of a domain of which it is known what it hits. It looks at the devices
/// that the domain hits and at no others, at each of them once, and takes no memory where there are
/// none.
pub fn loop_breach_of(alloc: Global, outage: &Outage<'_>) -> Result<Option<DeviceList>, NoMemory>
    ensures { IfOk result (LoopShown (net_of outage.now) (plan_of outage.now) outage.now.domain) }
{
    if outage.hit.is_empty() {
        return Ok(None);
    }
    loop_among(alloc, outage)
}

/// The cycle that is shown among the devices that a domain hits.
fn loop_among(alloc: Global, outage: &Outage<'_>) -> Result<Option<DeviceList>, NoMemory>
    requires ascending { IsTrue (ascends outage.now.hit.now) }
    requires graph { graphs.IsGraph (graphs.graph_of (plan_of outage.now) outage.now.hit.now) }
    ensures { IfOk result (AnswersFor (plan_of outage.now) outage.now.hit.now) }
{
    let graph = graph_of(alloc, outage)?;
    let marks = marks_of(alloc, &graph)?;
    match first_endless(&marks) {
        Some(begin) => {
            let shown = cycle_from(alloc, outage.hit, &graph, &marks, begin)?;
            Ok(Some(shown))
        }
        None => Ok(None),
    }
}
