//! How much the way between the two roots adds to what an acting root sends.
ghost use Rattle.std.specs.Prelude.{◌≡◌, ◌≤◌, ◌<◌, ◌*◌, ◌^◌, length};
ghost use Rattle.sd_drill.specs.Drill as words;
ghost use Rattle.sd_plan.specs.Tables.{EndsAt};
ghost use Rattle.sd_plan.specs.Walks.{walk};
ghost use Rattle.sd_drill.specs.recovery.Walks.{halves};
ghost use Rattle.sd_plan.specs.topo.Network as network_words;
ghost use Rattle.sd_plan.specs.topo.Topologies.{network};

use sd_plan::topo::Topology;
use sd_plan::{Hop, IndexedPlan, backup_of, primary_of};

/// The half of a hop of a device.
fn half_of(topo: &Topology, d: u32, hop: Hop) -> u64
    requires { EndsAt (network topo.now) d hop }
    ensures is { result ≡ (network_words.bounds_of (network topo.now) hop.link d).half }
    ensures bound { result ≤ 10 ^ 12 }
{
    topo.bounds(hop.link, d).half
}

/// The sum of the halves along the walk of a device to the root.
pub(crate) fn halves_to_root(planned: IndexedPlan<'_>, d: u32) -> u64
    requires { d < length (network planned.topo.now).devices }
    ensures is { result ≡ halves (network planned.entry.topo.now) d
        (walk (network planned.entry.topo.now) planned.entry.plan.now d) }
    ensures bound { result ≤ 64 * 10 ^ 12 }
{
    let mut sum = 0;
    let mut here = d;
    let mut left = planned.topo.params().depth;
    while left > 0 && here != planned.plan.root {
        let Some(hop) = primary_of(planned.plan, here) else {
            return sum;
        };
        sum += half_of(planned.topo, here, hop);
        here = hop.parent;
        left -= 1;
    }
    sum
}

/// The greatest sum of halves from the backup root to the root: over its primary, or over its backup.
pub(crate) fn root_halves(planned: IndexedPlan<'_>) -> u64
    ensures is { result ≡ words.root_halves
        (network planned.entry.topo.now) planned.entry.plan.now }
    ensures bound { result ≤ 65 * 10 ^ 12 }
{
    let backup_root = planned.plan.backup_root;
    let over_primary = halves_to_root(planned, backup_root);
    match backup_of(planned.plan, backup_root) {
        Some(hop) => {
            let over_backup = half_of(planned.topo, backup_root, hop)
                + halves_to_root(planned, hop.parent);
            over_primary.max(over_backup)
        }
        None => over_primary,
    }
}
