//! Who follows each device as its primary parent.
ghost use Rattle.std.specs.Prelude.{◌≡◌, ◌++◌, ◌<◌, ℕ, length, map, [], slice_index_or, OnOk, IfOk};
ghost use Rattle.sd_plan.specs.topo.Network.{device_numbers};
ghost use Rattle.sd_plan.specs.topo.Topologies.{network};
ghost use Rattle.sd_plan.specs.Plans.{Fits};
ghost use Rattle.sd_plan.specs.Subtrees as subtrees;

use crate::hops::primary_of;
use crate::topo::Topology;
use crate::{DeviceList, Plan, empty_lists};
use sd_num::NoMemory;
use std::alloc::Global;

/// Adds a device to the children of its primary parent, if it has one.
fn add_child(
    alloc: Global,
    lists: &mut [DeviceList],
    plan: &Plan,
    child: u32,
) -> Result<(), NoMemory>
    requires child { child < length plan.now.rows }
    requires parent { subtrees.HasParentBelow (length lists.old) plan.now child }
    ensures { OnOk result ((d : ℕ) → d < length lists.old → slice_index_or lists.new d []
        ≡ slice_index_or lists.old d [] ++ subtrees.child_below plan.now child d) }
{
    if let Some(hop) = primary_of(plan, child) {
        lists[hop.parent as usize].push(alloc, child)?;
    }
    Ok(())
}

/// The children of each device, ascending.
pub(super) fn all_children(
    alloc: Global,
    topo: &Topology,
    plan: &Plan,
) -> Result<Vec<DeviceList>, NoMemory>
    requires fits { Fits (network topo.now) plan.now }
    ensures { IfOk result (λ lists. lists.items
        ≡ map (subtrees.children (network topo.now) plan.now) (device_numbers (network topo.now))) }
{
    let mut lists = empty_lists(alloc, topo.devices())?;
    for child in 0..topo.devices() {
        add_child(alloc, &mut lists, plan, child)?;
    }
    Ok(lists)
}
