//! The usable links of each device, with their other ends.
ghost use Rattle.std.specs.Prelude.{◌≡◌, ◌+◌, ◌++◌, ◌<◌, ℕ, length, map, [], slice_index_or, OnOk, IfOk};
ghost use Rattle.sd_plan.specs.topo.Network.{device_numbers};
ghost use Rattle.sd_plan.specs.topo.Topologies.{network};
ghost use Rattle.sd_planner.specs.Gathered.{neighbour_below, over_before, over_links};
ghost use Rattle.sd_planner.specs.Flags.{is_set};

use super::rows::{NeighbourRow, no_neighbours};
use crate::present::Neighbour;
use sd_num::NoMemory;
use sd_plan::topo::Topology;
use std::alloc::Global;

/// Adds the neighbour over a link from one end to the other.
fn add_neighbour(rows: &mut [NeighbourRow], link: u32, at: u32, other: u32) -> Result<(), NoMemory>
    requires { at < length rows.old }
    ensures { OnOk result ((d : ℕ) → d < length rows.old → slice_index_or rows.new d []
        ≡ slice_index_or rows.old d [] ++ neighbour_below link at other d) }
{
    rows[at as usize].push(Neighbour {
        device: other,
        link,
    })
}

/// Adds the neighbours over a link to both its ends, if it may be used.
fn add_link(
    rows: &mut [NeighbourRow],
    topo: &Topology,
    usable: &[bool],
    l: u32,
) -> Result<(), NoMemory>
    requires link { l < length (network topo.now).links }
    requires flags { length usable.now ≡ length (network topo.now).links }
    requires rows { rows.old ≡ map (over_before (network topo.now) usable.now l)
        (device_numbers (network topo.now)) }
    ensures { OnOk result (rows.new ≡ map (over_before (network topo.now) usable.now (l + 1))
        (device_numbers (network topo.now))) }
{
    if !usable[l as usize] {
        return Ok(());
    }
    let link = topo.link(l);
    add_neighbour(rows, l, link.end_a, link.end_b)?;
    add_neighbour(rows, l, link.end_b, link.end_a)
}

/// The neighbours of each device over the links that may be used, by ascending link.
pub(crate) fn neighbours_by_link(
    alloc: Global,
    topo: &Topology,
    usable: &[bool],
) -> Result<Vec<NeighbourRow>, NoMemory>
    requires flags { length usable.now ≡ length (network topo.now).links }
    ensures { IfOk result (λ rows. rows.items
        ≡ map (over_links (network topo.now) usable.now) (device_numbers (network topo.now))) }
{
    let mut rows = no_neighbours(alloc, topo.devices() as usize)?;
    for l in 0..topo.links() {
        add_link(&mut rows, topo, usable, l)?;
    }
    Ok(rows)
}
