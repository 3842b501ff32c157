//! Which device's primary hop goes over each link.
ghost use Rattle.std.specs.Prelude.{◌≡◌, ◌<◌, ℕ, map, Some, None, replicate, IfSome, IfOk, length, slice_index_or, if◌then◌else◌};
ghost use Rattle.sd_plan.specs.topo.Network.{link_numbers};
ghost use Rattle.sd_plan.specs.topo.Topologies.{network};
ghost use Rattle.sd_plan.specs.Plans.{Fits, primary_of};
ghost use Rattle.sd_plan.specs.Structure.{structure_breach};
ghost use Rattle.sd_plan.specs.IndexedPlan.{carried_over, goes_over};

use crate::topo::Topology;
use crate::{Plan, hops};
use sd_num::NoMemory;
use std::alloc::Global;

/// Nothing for each link.
fn no_devices(alloc: Global, count: u32) -> Result<Vec<Option<u32>>, NoMemory>
    ensures { IfOk result (λ carried. carried.items ≡ replicate count None) }
{
    match vec![in alloc; None; count as usize] {
        Ok(carried) => Ok(carried),
        Err(_) => Err(NoMemory),
    }
}

/// Notes the link of a device's primary hop.
fn carry(carried: &mut [Option<u32>], plan: &Plan, d: u32)
    requires device { d < length plan.now.rows }
    requires link { IfSome (primary_of plan.now d) (λ hop. hop.link < length carried.old) }
    ensures { (l : ℕ) → l < length carried.old → slice_index_or carried.new l None
        ≡ (if goes_over plan.now l d then Some d else slice_index_or carried.old l None) }
{
    if let Some(hop) = hops::primary_of(plan, d) {
        carried[hop.link as usize] = Some(d);
    }
}

/// By link, the device whose primary hop goes over it.
pub(super) fn all_carried(
    alloc: Global,
    topo: &Topology,
    plan: &Plan,
) -> Result<Vec<Option<u32>>, NoMemory>
    requires fits { Fits (network topo.now) plan.now }
    requires structured { structure_breach (network topo.now) plan.now ≡ None }
    ensures { IfOk result (λ carried. carried.items
        ≡ map (carried_over (network topo.now) plan.now) (link_numbers (network topo.now))) }
{
    let mut carried = no_devices(alloc, topo.links())?;
    for d in 0..topo.devices() {
        carry(&mut carried, plan, d);
    }
    Ok(carried)
}
