//! The usable links of each device, with their other ends.
ghost use Rattle.std.specs.Prelude.{◌≡◌, ◌+◌, ◌++◌, ◌<◌, ℕ, length, map, [], None, replicate, true, not, slice_index_or, IsTrue, OnOk, IfOk};
ghost use Rattle.sd_num.specs.Lists.{all_below, below, has};
ghost use Rattle.sd_plan.specs.topo.Network.{device_numbers};
ghost use Rattle.sd_plan.specs.topo.Topologies.{network};
ghost use Rattle.sd_plan.specs.Plans.{Fits, is_present};
ghost use Rattle.sd_plan.specs.Structure.{structure_breach};
ghost use Rattle.sd_plan.specs.IndexedPlan as indexed;
ghost use Rattle.sd_plan.specs.Usable.{usable_before, usable_below};

use crate::flags::present;
use crate::table::duties::is_member;
use crate::table::ends::EndList;
use crate::topo::Topology;
use crate::{End, Plan, empty_lists};
use sd_num::NoMemory;
use std::alloc::Global;

/// Adds one end of a link to the usable ends of the other, if it is a member.
fn add_usable(
    alloc: Global,
    rows: &mut [EndList],
    topo: &Topology,
    plan: &Plan,
    link: u32,
    at: u32,
    other: u32,
) -> Result<(), NoMemory>
    requires fits { Fits (network topo.now) plan.now }
    requires structured { structure_breach (network topo.now) plan.now ≡ None }
    requires at { at < length rows.old }
    requires other { other < length (network topo.now).devices }
    ensures { OnOk result ((d : ℕ) → d < length rows.old → slice_index_or rows.new d []
        ≡ slice_index_or rows.old d [] ++ usable_below plan.now link at other d) }
{
    if is_member(topo, plan, other) {
        rows[at as usize].push(
            alloc,
            End {
                link,
                device: other,
            },
        )?;
    }
    Ok(())
}

/// Adds what a link makes usable to its two ends.
fn add_link(
    alloc: Global,
    rows: &mut [EndList],
    topo: &Topology,
    plan: &Plan,
    l: u32,
    present: bool,
) -> Result<(), NoMemory>
    requires fits { Fits (network topo.now) plan.now }
    requires structured { structure_breach (network topo.now) plan.now ≡ None }
    requires link { l < length (network topo.now).links }
    requires present { present ≡ is_present plan.now l }
    requires rows { rows.old ≡ map (usable_before (network topo.now) plan.now l)
        (device_numbers (network topo.now)) }
    ensures { OnOk result (rows.new ≡ map (usable_before (network topo.now) plan.now (l + 1))
        (device_numbers (network topo.now))) }
{
    if !present {
        return Ok(());
    }
    let link = topo.link(l);
    add_usable(alloc, rows, topo, plan, l, link.end_a, link.end_b)?;
    add_usable(alloc, rows, topo, plan, l, link.end_b, link.end_a)
}

/// The usable links of each device, ascending, with their other ends.
pub(super) fn usable_ends(
    alloc: Global,
    topo: &Topology,
    plan: &Plan,
) -> Result<Vec<EndList>, NoMemory>
    requires fits { Fits (network topo.now) plan.now }
    requires structured { structure_breach (network topo.now) plan.now ≡ None }
    ensures { IfOk result (λ rows. rows.items
        ≡ map (indexed.usable_ends (network topo.now) plan.now)
        (device_numbers (network topo.now))) }
{
    let links = present(alloc, topo.links(), plan.absent.links.as_slice())?;
    let mut rows = empty_lists(alloc, topo.devices())?;
    for l in 0..topo.links() {
        add_link(alloc, &mut rows, topo, plan, l, links[l as usize])?;
    }
    Ok(rows)
}
