//! Which devices a fault domain hits, found from what fails and not by going over all devices.
ghost use Rattle.std.specs.Prelude.{◌≡◌, IfOk};
ghost use Rattle.sd_plan.specs.domain.Lone.{IsDomain};
ghost use Rattle.sd_checker.specs.check_hit.Hit.{hit_by};
ghost use Rattle.sd_plan.specs.IndexedPlan.{IsIndexOf};
ghost use Rattle.sd_plan.specs.topo.Topologies.{network};

mod impact;
mod merge;
mod outage;
mod spans;

pub use impact::Impact;
use merge::{ascending, devices_in};
pub use outage::Outage;
use sd_num::NoMemory;
use sd_plan::domain::DomainId;
use sd_plan::topo::Topology;
use sd_plan::{DeviceList, Plan, WalkIndex};
use spans::spans_of;
use std::alloc::Global;

/// The devices that a domain hits, ascending. Of a domain that hits nobody it costs as much as the
/// domain is long, and takes no memory.
pub fn hit_devices(
    alloc: Global,
    topo: &Topology,
    plan: &Plan,
    index: &WalkIndex,
    domain: DomainId,
) -> Result<DeviceList, NoMemory>
    requires domain { IsDomain (network topo.now) domain }
    requires indexed { IsIndexOf (network topo.now) plan.now index.now }
    ensures { IfOk result (λ hit. hit ≡ hit_by (network topo.now) plan.now domain) }
{
    let mut spans = spans_of(alloc, topo, plan, index, domain)?;
    spans.sort_unstable_by_key(|span| span.from);
    let devices = devices_in(alloc, index.order(), &spans)?;
    ascending(alloc, devices)
}
