//! The conditions on domains and reach: whatever one domain fails, each sound device is cut off by
//! it or comes to hear the acting end again.
ghost use Rattle.std.specs.Prelude.{◌≡◌, None, IfOk};
ghost use Rattle.sd_checker.specs.check_reach.Answered.{DomainShown, ReachShown};
ghost use Rattle.sd_plan.specs.domain.Lone.{IsDomain};
ghost use Rattle.sd_plan.specs.IndexedPlan.{IsIndexOf};
ghost use Rattle.sd_plan.specs.Plans.{Fits};
ghost use Rattle.sd_plan.specs.Structure.{structure_breach};
ghost use Rattle.sd_plan.specs.topo.Topologies.{network};

mod aftermath;
mod breach;
mod chain;
mod choosing;
mod home;
mod marks;
mod search;
mod turn;

use crate::check_hit::Impact;
use sd_num::NoMemory;
use sd_plan::domain::DomainId;
use sd_plan::topo::Topology;
use sd_plan::{DeviceList, IndexedPlan, Plan, WalkIndex};
pub use search::Search;
use std::alloc::Global;

/// The lowest sound device, no root, that the domain hits and does not cut off, and whose backup it takes.
pub fn domain_breach(
    alloc: Global,
    topo: &Topology,
    plan: &Plan,
    domain: DomainId,
) -> Result<Option<u32>, NoMemory>
    requires fits { Fits (network topo.now) plan.now }
    requires structured { structure_breach (network topo.now) plan.now ≡ None }
    requires domain { IsDomain (network topo.now) domain }
    ensures { IfOk result (DomainShown (network topo.now) plan.now domain) }
{
    let index = WalkIndex::new(alloc, topo, plan)?;
    domain_breach_in(alloc, topo, plan, &index, domain)
}

/// What `domain_breach` answers, by an index of this plan, which serves all domains.
pub fn domain_breach_in(
    alloc: Global,
    topo: &Topology,
    plan: &Plan,
    index: &WalkIndex,
    domain: DomainId,
) -> Result<Option<u32>, NoMemory>
    requires domain { IsDomain (network topo.now) domain }
    requires indexed { IsIndexOf (network topo.now) plan.now index.now }
    ensures { IfOk result (DomainShown (network topo.now) plan.now domain) }
{
    let planned = IndexedPlan { topo, plan, index };
    let mut impact = Impact::new(alloc, topo)?;
    impact.strike(alloc, planned, domain)?;
    let mut search = Search::new(alloc, topo)?;
    search.domain_breach(alloc, &impact.outage(planned, domain))
}

/// The chain of next hops from the lowest sound device that the domain neither cuts off nor lets
/// hear the acting end again.
pub fn reach_breach(
    alloc: Global,
    topo: &Topology,
    plan: &Plan,
    domain: DomainId,
) -> Result<Option<DeviceList>, NoMemory>
    requires fits { Fits (network topo.now) plan.now }
    requires structured { structure_breach (network topo.now) plan.now ≡ None }
    requires domain { IsDomain (network topo.now) domain }
    ensures { IfOk result (ReachShown (network topo.now) plan.now domain) }
{
    let index = WalkIndex::new(alloc, topo, plan)?;
    reach_breach_in(alloc, topo, plan, &index, domain)
}

/// What `reach_breach` answers, by an index of this plan, which serves all domains.
pub fn reach_breach_in(
    alloc: Global,
    topo: &Topology,
    plan: &Plan,
    index: &WalkIndex,
    domain: DomainId,
) -> Result<Option<DeviceList>, NoMemory>
    requires domain { IsDomain (network topo.now) domain }
    requires indexed { IsIndexOf (network topo.now) plan.now index.now }
    ensures { IfOk result (ReachShown (network topo.now) plan.now domain) }
{
    let planned = IndexedPlan { topo, plan, index };
    let mut impact = Impact::new(alloc, topo)?;
    impact.strike(alloc, planned, domain)?;
    let mut search = Search::new(alloc, topo)?;
    search.reach_breach(alloc, &impact.outage(planned, domain))
}
