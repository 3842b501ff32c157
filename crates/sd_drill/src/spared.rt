//! The bounds of devices under the domains that spare them, as far as they are known.
ghost use Rattle.std.specs.Prelude.{◌≡◌, ◌<◌, None, length, replicate, IfOk};
ghost use Rattle.sd_checker.specs.check_hit.Outages.{net_of, plan_of};
ghost use Rattle.sd_drill.specs.Spared as words;

use sd_checker::check_hit::Outage;
use sd_num::NoMemory;
use sd_plan::topo::Topology;
use std::alloc::Global;

/// Of each device, its bound under every domain that spares it, if it is known. No such domain
/// changes its walks, and most domains spare most devices.
#[derive(Drop)]
pub(crate) struct SparedBounds {
    known: Vec<Option<u128>>,
}

/// Whether the domain neither has a device nor hits it.
pub(crate) fn is_spared(outage: &Outage<'_>, d: u32) -> bool
    requires { d < length (net_of outage.now).devices }
    ensures { result ≡ words.is_spared (net_of outage.now)
        (plan_of outage.now) outage.now.domain d }
{
    !outage.hits(d) && !outage.holds_device(d)
}

/// No bound is known of this many devices.
fn no_bounds(alloc: Global, count: u32) -> Result<Vec<Option<u128>>, NoMemory>
    ensures { IfOk result (λ known. known.items ≡ replicate count None) }
{
    match vec![in alloc; None; count as usize] {
        Ok(known) => Ok(known),
        Err(_) => Err(NoMemory),
    }
}

impl SparedBounds {
    ghost use Rattle.std.specs.Prelude.{slice_set};
    ghost use Rattle.sd_drill.specs.Spared.{AreSparedBounds, spared_at};
    ghost use Rattle.sd_drill.specs.declared.Budget.{Budget};
    ghost use Rattle.sd_plan.specs.declared.Plan.{Plan};
    ghost use Rattle.sd_plan.specs.topo.Topologies.{network};

    /// Nothing is known of the devices of a topology.
    pub(crate) fn new(alloc: Global, topo: &Topology) -> Result<SparedBounds, NoMemory>
        ensures { IfOk result (λ spared. (plan : Plan) (budget : Budget)
            → AreSparedBounds (network topo.now) plan budget spared.known.items) }
    {
        let known = no_bounds(alloc, topo.devices())?;
        Ok(SparedBounds { known })
    }

    /// The bound of a device, if it is known.
    pub(crate) fn get(&self, d: u32) -> Option<u128>
        requires { d < length self.now.known.items }
        ensures { result ≡ spared_at self.now.known.items d }
    {
        self.known[d as usize]
    }

    /// Notes the bound of a device.
    pub(crate) fn note(&mut self, d: u32, bound: Option<u128>)
        requires { d < length self.old.known.items }
        ensures { self.new.known.items ≡ slice_set self.old.known.items d bound }
    {
        self.known[d as usize] = bound;
    }
}
