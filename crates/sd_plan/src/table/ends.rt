//! What lies below each device.
ghost use Rattle.std.specs.Prelude.{◌≡◌, ℕ, ◌+◌, ◌++◌, ◌<◌, length, map, [], None, slice_index_or, OnOk, IfOk};
ghost use Rattle.sd_plan.specs.topo.Network.{device_numbers};
ghost use Rattle.sd_plan.specs.topo.Topologies.{network};
ghost use Rattle.sd_plan.specs.Plans.{Fits};
ghost use Rattle.sd_plan.specs.Duties as duties;
ghost use Rattle.sd_plan.specs.Structure.{structure_breach};
ghost use Rattle.sd_plan.specs.Tables.{ends_before, end_below};

use crate::hops::{backup_of, primary_of};
use crate::topo::Topology;
use crate::{End, Hop, List, Plan, empty_lists};
use sd_num::NoMemory;
use std::alloc::Global;

/// The ends below one device.
pub(crate) type EndList = List<End>;

/// Whether a hop leads to a parent over a link.
fn leads_to(hop: Option<Hop>, parent: u32, link: u32) -> bool
    ensures { result ≡ duties.leads_to parent link hop }
{
    match hop {
        Some(hop) => hop.parent == parent && hop.link == link,
        None => false,
    }
}

/// Whether a device follows another over a link.
fn follows_over(plan: &Plan, parent: u32, link: u32, child: u32) -> bool
    requires { child < length plan.now.rows }
    ensures { result ≡ duties.follows_over plan.now parent link child }
{
    leads_to(primary_of(plan, child), parent, link)
        || leads_to(backup_of(plan, child), parent, link)
}

/// Adds one end of a link to the ends below the other, if it follows this over it.
fn add_end(
    alloc: Global,
    rows: &mut [EndList],
    plan: &Plan,
    link: u32,
    parent: u32,
    child: u32,
) -> Result<(), NoMemory>
    requires parent { parent < length rows.old }
    requires child { child < length plan.now.rows }
    ensures { OnOk result ((d : ℕ) → d < length rows.old → slice_index_or rows.new d []
        ≡ slice_index_or rows.old d [] ++ end_below plan.now link parent child d) }
{
    if follows_over(plan, parent, link, child) {
        rows[parent as usize].push(
            alloc,
            End {
                link,
                device: child,
            },
        )?;
    }
    Ok(())
}

/// Adds what lies below the two ends of a link.
fn add_link(
    alloc: Global,
    rows: &mut [EndList],
    topo: &Topology,
    plan: &Plan,
    l: u32,
) -> Result<(), NoMemory>
    requires fits { Fits (network topo.now) plan.now }
    requires structured { structure_breach (network topo.now) plan.now ≡ None }
    requires link { l < length (network topo.now).links }
    requires rows { rows.old ≡ map (ends_before (network topo.now) plan.now l)
        (device_numbers (network topo.now)) }
    ensures { OnOk result (rows.new ≡ map (ends_before (network topo.now) plan.now (l + 1))
        (device_numbers (network topo.now))) }
{
    let link = topo.link(l);
    add_end(alloc, rows, plan, l, link.end_a, link.end_b)?;
    add_end(alloc, rows, plan, l, link.end_b, link.end_a)
}

/// What lies below each device, by ascending link.
pub(super) fn all_ends(
    alloc: Global,
    topo: &Topology,
    plan: &Plan,
) -> Result<Vec<EndList>, NoMemory>
    requires fits { Fits (network topo.now) plan.now }
    requires structured { structure_breach (network topo.now) plan.now ≡ None }
    ensures { IfOk result (λ rows. rows.items
        ≡ map (duties.ends_of (network topo.now) plan.now) (device_numbers (network topo.now))) }
{
    let mut rows = empty_lists(alloc, topo.devices())?;
    for l in 0..topo.links() {
        add_link(alloc, &mut rows, topo, plan, l)?;
    }
    Ok(rows)
}
