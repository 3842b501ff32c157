//! The first reason of all.
ghost use Rattle.std.specs.Prelude.{◌≡◌, IfOk, IfSome};
ghost use Rattle.sd_plan.specs.Plans.{nothing_absent};
ghost use Rattle.sd_plan.specs.topo.Topologies.{network};
ghost use Rattle.sd_planner.specs.Views.{net_of, left_out};
ghost use Rattle.sd_why.specs.Kinds as kind;
ghost use Rattle.sd_why.specs.Reasons.{FindsBefore, IsWhy, NoneBefore};
ghost use Rattle.sd_why.specs.Plans.{HasNoPlanOfCandidates};

use crate::{
    Reason, apart_device, deep_from_all, few_candidates, few_links, shared_domain, short_period,
};
use sd_num::NoMemory;
use sd_plan::topo::Topology;
use sd_plan::{Absent, DeviceList};
use sd_planner::Present;
use std::alloc::Global;

/// The first reason that is seen without a look at the links.
fn beside_links(topo: &Topology) -> Option<Reason>
    ensures { FindsBefore (network topo.now) kind.apart result }
{
    if let Some(reason) = few_candidates(topo) {
        return Some(reason);
    }
    if let Some(reason) = short_period(topo) {
        return Some(reason);
    }
    shared_domain(topo)
}

/// The first reason that is seen along the links.
fn along_links(alloc: Global, present: &Present) -> Result<Option<Reason>, NoMemory>
    requires whole { left_out present.now ≡ nothing_absent }
    requires before { NoneBefore (net_of present.now) kind.apart }
    ensures { IfOk result (IsWhy (net_of present.now)) }
{
    if let Some(reason) = apart_device(alloc, present)? {
        return Ok(Some(reason));
    }
    if let Some(reason) = deep_from_all(alloc, present)? {
        return Ok(Some(reason));
    }
    few_links(alloc, present)
}

/// The first reason why no plan is accepted that has all that there is, and whose root and backup
/// root are candidates; None where none of these reasons is one.
pub fn why(alloc: Global, topo: &Topology) -> Result<Option<Reason>, NoMemory>
    ensures first { IfOk result (IsWhy (network topo.now)) }
    ensures law { IfOk result
        (λ found. IfSome found (λ reason. HasNoPlanOfCandidates (network topo.now))) }
{
    if let Some(reason) = beside_links(topo) {
        return Ok(Some(reason));
    }
    let absent = Absent {
        devices: DeviceList::new(alloc),
        links: DeviceList::new(alloc),
    };
    let present = Present::new(alloc, topo, &absent)?;
    along_links(alloc, &present)
}
