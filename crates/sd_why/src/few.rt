//! Fewer links than a plan needs.
ghost use Rattle.std.specs.Prelude.{◌≡◌, IfOk, IfSome};
ghost use Rattle.sd_plan.specs.Plans.{nothing_absent};
ghost use Rattle.sd_plan.specs.topo.Topologies.{network};
ghost use Rattle.sd_planner.specs.Views.{net_of, left_out};
ghost use Rattle.sd_why.specs.Bridges as bridge;
ghost use Rattle.sd_why.specs.Kinds as kind;
ghost use Rattle.sd_why.specs.Reasons.{Judges};
ghost use Rattle.sd_why.specs.Plans.{HasNoPlan};

use crate::Reason;
use crate::bridges::count_bridges;
use sd_num::NoMemory;
use sd_plan::topo::Topology;
use sd_planner::Present;
use std::alloc::Global;

/// How many links besides the bridges a plan needs, by how many bridges there are.
pub(crate) fn needed_besides(topo: &Topology, bridges: u32) -> u32
    ensures { result ≡ bridge.needed_besides (network topo.now) bridges }
{
    let devices = topo.devices().saturating_sub(bridges);
    ((3 * devices + 1) / 2).saturating_sub(2)
}

/// That links besides the bridges are fewer than a plan needs, where it is so. It counts bridges only
/// where links are fewer than half as many again as devices.
pub fn few_links(alloc: Global, present: &Present) -> Result<Option<Reason>, NoMemory>
    requires whole { left_out present.now ≡ nothing_absent }
    ensures judges { IfOk result (Judges (net_of present.now) kind.few) }
    ensures law { IfOk result (λ found. IfSome found (λ reason. HasNoPlan (net_of present.now))) }
{
    let links = present.topo.links();
    if 3 * present.topo.devices() <= 2 * links + 4 {
        return Ok(None);
    }
    let bridges = count_bridges(alloc, present)?;
    if links < bridges + needed_besides(present.topo, bridges) {
        Ok(Some(Reason::Few(bridges)))
    } else {
        Ok(None)
    }
}
