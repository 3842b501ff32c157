//! Which links may be used.
ghost use Rattle.std.specs.Prelude.{◌≡◌, ◌<◌, ◌&&◌, map, false, length, slice_index_or, IfOk};
ghost use Rattle.sd_plan.specs.topo.Network.{device_numbers, link_numbers, link_of};
ghost use Rattle.sd_plan.specs.topo.Topologies.{network};
ghost use Rattle.sd_planner.specs.Usable.{takes_part, is_usable};
ghost use Rattle.sd_planner.specs.Absences.{IsAbsentOf};

use sd_num::NoMemory;
use sd_plan::topo::Topology;
use sd_plan::{Absent, present};
use std::alloc::Global;

/// Whether a link and both its ends are flagged.
fn is_flagged(topo: &Topology, members: &[bool], links: &[bool], l: u32) -> bool
    requires link { l < length (network topo.now).links }
    requires members { length members.now ≡ length (network topo.now).devices }
    requires links { length links.now ≡ length (network topo.now).links }
    ensures { result ≡ (slice_index_or links.now l false
        && slice_index_or members.now (link_of (network topo.now) l).end_a false
        && slice_index_or members.now (link_of (network topo.now) l).end_b false) }
{
    let link = topo.link(l);
    links[l as usize] && members[link.end_a as usize] && members[link.end_b as usize]
}

/// Whether each link is not absent, and both its ends take part.
pub(crate) fn usable_links(
    alloc: Global,
    topo: &Topology,
    absent: &Absent,
    members: &[bool],
) -> Result<Vec<bool>, NoMemory>
    requires absent { IsAbsentOf (network topo.now) absent.now }
    requires members { members.now ≡ map (takes_part (network topo.now) absent.now)
        (device_numbers (network topo.now)) }
    ensures { IfOk result (λ flags. flags.items
        ≡ map (is_usable (network topo.now) absent.now) (link_numbers (network topo.now))) }
{
    let links = present(alloc, topo.links(), absent.links.as_slice())?;
    let mut flags = Vec::new(alloc);
    for l in 0..topo.links() {
        let Ok(()) = flags.push(is_flagged(topo, members, &links, l)) else {
            return Err(NoMemory);
        };
    }
    Ok(flags)
}
