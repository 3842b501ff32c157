//! By how much the estimates of devices have grown once they hear again, as far as it is known.
ghost use Rattle.std.specs.Prelude.{◌≡◌, None, replicate, IfOk};

use crate::times::Times;
use sd_num::NoMemory;
use sd_plan::IndexedPlan;
use sd_plan::topo::Topology;
use std::alloc::Global;

/// How much a device's estimate has grown, over walks of some length.
#[derive(Clone, Copy)]
pub(crate) struct Growth {
    /// The greatest number of hops.
    long: u32,
    growth: u128,
}

/// Of each device, the growth that was computed last. It depends on no domain, but for how long the
/// walks are; most domains change the walks of few devices.
#[derive(Drop)]
pub(crate) struct GrowthCache {
    known: Vec<Option<Growth>>,
}

/// Nothing is known of this many devices.
fn none_known(alloc: Global, count: u32) -> Result<Vec<Option<Growth>>, NoMemory>
    ensures { IfOk result (λ known. known.items ≡ replicate count None) }
{
    match vec![in alloc; None; count as usize] {
        Ok(known) => Ok(known),
        Err(_) => Err(NoMemory),
    }
}

impl GrowthCache {
    ghost use Rattle.std.specs.Prelude.{◌+◌, ◌≤◌, ◌<◌, length};
    ghost use Rattle.sd_drill.specs.Times.{AreGrowths, AreTimes, IsGrowth};
    ghost use Rattle.sd_plan.specs.declared.Plan.{Plan};
    ghost use Rattle.sd_plan.specs.topo.Topologies.{network};

    /// Nothing is known of the devices of a topology.
    pub(crate) fn new(alloc: Global, topo: &Topology) -> Result<GrowthCache, NoMemory>
        ensures { IfOk result (λ growths. (plan : Plan)
            → AreGrowths (network topo.now) plan growths) }
    {
        let known = none_known(alloc, topo.devices())?;
        Ok(GrowthCache { known })
    }

    /// The growth of a device whose walks have this many hops at most. It is computed where the one
    /// that is known is of another length.
    pub(crate) fn of(&mut self, times: Times, planned: IndexedPlan<'_>, d: u32, long: u32) -> u128
        requires times { AreTimes (network planned.topo.now) planned.plan.now times }
        requires growths { AreGrowths (network planned.topo.now) planned.plan.now self.old }
        requires device { d < length (network planned.topo.now).devices }
        requires long { long ≤ (network planned.topo.now).params.depth + 1 }
        ensures growth { IsGrowth (network planned.entry.topo.now) planned.entry.plan.now d long
            result }
        ensures growths { AreGrowths (network planned.entry.topo.now) planned.entry.plan.now
            self.new }
    {
        match self.known[d as usize] {
            Some(known) if known.long == long => known.growth,
            _ => {
                let growth = times.growth(planned, d, long);
                self.known[d as usize] = Some(Growth { long, growth });
                growth
            }
        }
    }
}
