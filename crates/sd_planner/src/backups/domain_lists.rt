//! The listed domains of each device and of each link.
ghost use Rattle.std.specs.Prelude.{◌≡◌, ◌<◌, ℕ, ◌&&◌, ◌||◌, true, length, nat_eq, IfOk, OnOk};
ghost use Rattle.sd_num.specs.Lists.{has};
ghost use Rattle.sd_plan.specs.topo.Topologies.{network};
ghost use Rattle.sd_plan.specs.Subtrees.{listed};
ghost use Rattle.sd_planner.specs.Listed.{AreListed};

use sd_num::NoMemory;
use sd_plan::topo::Topology;
use sd_plan::{DeviceList, empty_lists};
use std::alloc::Global;
use std::marker::Model;

/// The listed domains of each device and of each link.
#[derive(Drop)]
pub(crate) struct DomainLists {
    devices: Vec<DeviceList>,
    links: Vec<DeviceList>,
}

impl Model for DomainLists {
    ghost use Rattle.sd_planner.specs.Listed.{Lists};

    ghost Value = { Lists };

    ghost view = { λ l. record { devices = l.devices.items; links = l.links.items } };
}

/// Adds a domain to the lists of its things.
fn add_domain(
    alloc: Global,
    lists: &mut [DeviceList],
    things: &[u32],
    domain: u32,
) -> Result<(), NoMemory>
    requires { (x : ℕ) → has things.now x ≡ true → x < length lists.old }
    ensures { OnOk result ((x k : ℕ) → has (listed lists.new x) k
        ≡ (has (listed lists.old x) k || (nat_eq k domain && has things.now x))) }
{
    for thing in things {
        lists[*thing as usize].push(alloc, domain)?;
    }
    Ok(())
}

impl DomainLists {
    /// The lists of a topology.
    pub(crate) fn new(alloc: Global, topo: &Topology) -> Result<DomainLists, NoMemory>
        ensures { IfOk result (AreListed (network topo.now) (length (network topo.now).domains)) }
    {
        let mut devices = empty_lists(alloc, topo.devices())?;
        let mut links = empty_lists(alloc, topo.links())?;
        for k in 0..topo.domains() {
            add_domain(alloc, &mut devices, topo.domain_devices(k), k)?;
            add_domain(alloc, &mut links, topo.domain_links(k), k)?;
        }
        Ok(DomainLists { devices, links })
    }

    /// The domains that have a device.
    pub(crate) fn of_device(&self, d: u32) -> &[u32]
        ensures { result.now ≡ listed self.now.devices d }
    {
        match self.devices.get(d as usize) {
            Some(list) => list.as_slice(),
            None => &[],
        }
    }

    /// The domains that have a link.
    pub(crate) fn of_link(&self, l: u32) -> &[u32]
        ensures { result.now ≡ listed self.now.links l }
    {
        match self.links.get(l as usize) {
            Some(list) => list.as_slice(),
            None => &[],
        }
    }
}
