//! What premises and lines ask of a topology and its plans.
ghost use Rattle.std.specs.Prelude.{◌<◌, length};
ghost use Rattle.sd_plan.specs.topo.Topologies.{network};

use sd_plan::Plan;
use sd_plan::topo::{Thing, Topology};
use sd_test_fleet_kit::plain::Net;
use std::alloc::{AllocError, Global};

/// A topology and its plans. What is out of range is nothing.
#[derive(Drop)]
pub struct Site<'a> {
    /// The devices, the links and the plans.
    pub net: Net<'a>,
    /// How long a device may be silent between two looks at its counter, in ps.
    pub tick: u64,
    /// How many rounds may be spoiled one after the other.
    pub loss: u32,
    names: Vec<String>,
    /// The listed domains.
    pub domains: Vec<Vec<Thing>>,
}

fn names_of(alloc: Global, topo: &Topology) -> Result<Vec<String>, AllocError> {
    let mut names = Vec::new(alloc);
    for d in 0..topo.devices() {
        names.push(String::from_str(alloc, topo.device_name(d))?)?;
    }
    Ok(names)
}

fn devices_of(alloc: Global, topo: &Topology, f: u32) -> Result<Vec<Thing>, AllocError>
    requires { f < length (network topo.now).domains }
{
    let mut things = Vec::new(alloc);
    for d in topo.domain_devices(f) {
        things.push(Thing::Device(*d))?;
    }
    Ok(things)
}

fn things_of(alloc: Global, topo: &Topology, f: u32) -> Result<Vec<Thing>, AllocError>
    requires { f < length (network topo.now).domains }
{
    let mut things = devices_of(alloc, topo, f)?;
    for l in topo.domain_links(f) {
        things.push(Thing::Link(*l))?;
    }
    Ok(things)
}

fn domains_of(alloc: Global, topo: &Topology) -> Result<Vec<Vec<Thing>>, AllocError> {
    let mut domains = Vec::new(alloc);
    for f in 0..topo.domains() {
        domains.push(things_of(alloc, topo, f)?)?;
    }
    Ok(domains)
}

impl Site<'_> {
    /// A topology with its plans, the first of which is in force at first.
    pub fn of<'a>(
        alloc: Global,
        topo: &Topology,
        plans: &'a [Plan],
    ) -> Result<Site<'a>, AllocError> {
        Ok(Site {
            net: Net::of(alloc, topo, plans)?,
            tick: topo.params().tick,
            loss: topo.params().loss,
            names: names_of(alloc, topo)?,
            domains: domains_of(alloc, topo)?,
        })
    }

    /// The name of a device.
    pub(crate) fn name(&self, d: u32) -> &str {
        match self.names.get(d as usize) {
            Some(name) => name.as_str(),
            None => "",
        }
    }
}
