//! A failure: the devices and links that have failed.
ghost use Rattle.std.specs.Prelude.{◌≡◌, nat_eq, IfOk};
ghost use Rattle.std.specs.List.{IsDistinct};
ghost use Rattle.std.specs.FinSet as set;
ghost use Rattle.sd_plan.specs.topo.Topologies.{network};
ghost use Rattle.sd_plan.specs.domain.Failures.{nothing_of, nothing_in, HasRoom, with_thing};

use crate::domain::number_set::NumberSet;
use crate::topo::{Thing, Topology};
use sd_num::NoMemory;
use std::alloc::Global;
use std::marker::Model;

/// A set of devices and links. Only `new` takes memory.
#[derive(Drop)]
pub struct Failure {
    devices: NumberSet,
    links: NumberSet,
}

impl Model for Failure {
    ghost use Rattle.sd_plan.specs.domain.Failures.{FailedThings, failed_code};

    ghost Value = { FailedThings };

    ghost coded = { failed_code };

    ghost use Rattle.sd_plan.specs.domain.FailureView.{failed_seen};

    ghost view = { failed_seen };
}

impl Failure {
    /// A failure of nothing, with room for each device and each link of the topology.
    pub fn new(alloc: Global, topo: &Topology) -> Result<Failure, NoMemory>
        ensures { IfOk result (λ f. f ≡ nothing_in (network topo.now)) }
    {
        let devices = NumberSet::new(alloc, topo.devices())?;
        let links = NumberSet::new(alloc, topo.links())?;
        Ok(Failure { devices, links })
    }

    /// Adds a thing, which may be there already.
    pub fn add(&mut self, thing: Thing)
        requires { HasRoom self.old thing }
        ensures { self.new ≡ with_thing self.old thing }
    {
        match thing {
            Thing::Device(d) => {
                let _: bool = self.devices.insert(d);
            }
            Thing::Link(l) => {
                let _: bool = self.links.insert(l);
            }
        }
    }

    /// Takes all things out, in the time that these take.
    pub fn clear(&mut self)
        ensures { self.new ≡ nothing_of self.old.device_room self.old.link_room }
    {
        self.devices.clear();
        self.links.clear();
    }

    /// Whether the device has failed. None beyond the topology's has.
    pub fn contains_device(&self, d: u32) -> bool
        ensures { result ≡ set.contains self.now.devices d }
    {
        self.devices.contains(d)
    }

    /// Whether the link has failed. None beyond the topology's has.
    pub fn contains_link(&self, l: u32) -> bool
        ensures { result ≡ set.contains self.now.links l }
    {
        self.links.contains(l)
    }

    /// The devices, each once.
    pub(crate) fn devices(&self) -> &[u32]
        ensures all { set.from_list result.now ≡ self.now.devices }
        ensures distinct { IsDistinct nat_eq result.now }
    {
        self.devices.as_slice()
    }

    /// The links, each once.
    pub(crate) fn links(&self) -> &[u32]
        ensures all { set.from_list result.now ≡ self.now.links }
        ensures distinct { IsDistinct nat_eq result.now }
    {
        self.links.as_slice()
    }
}
