//! Room for what a domain fails and hits, which serves one domain after another.
ghost use Rattle.std.specs.Prelude.{◌≡◌, ◌<◌, ◌^◌, length, replicate, All, IfOk};
ghost use Rattle.sd_checker.specs.check_hit.Places.{ArePlaces, IsOnce};

use crate::check_hit::hit_devices;
use crate::check_hit::outage::Outage;
use sd_num::NoMemory;
use sd_plan::domain::{DomainId, Failure};
use sd_plan::topo::Topology;
use sd_plan::{DeviceList, IndexedPlan};
use std::alloc::Global;

/// What a domain fails and hits.
#[derive(Drop)]
pub struct Impact {
    failed: Failure,
    /// The devices that are hit, ascending.
    hit: DeviceList,
    /// By device, its place among those, if it is one of them.
    places: Vec<u32>,
}

/// A place for each number below a count.
fn no_places(alloc: Global, count: u32) -> Result<Vec<u32>, NoMemory>
    ensures { IfOk result (λ places. length places.items ≡ count) }
{
    match vec![in alloc; 0; count as usize] {
        Ok(places) => Ok(places),
        Err(_) => Err(NoMemory),
    }
}

/// Notes the places of listed numbers, which differ.
fn note_places(places: &mut [u32], listed: &[u32])
    requires within { All (λ d. d < length places.old) listed.now }
    requires once { IsOnce listed.now }
    requires room { length listed.now < 2 ^ 32 }
    ensures { ArePlaces (length places.old) listed.now places.new }
{
    for (place, number) in listed.iter().enumerate() {
        places[*number as usize] = place as u32;
    }
}

impl Impact {
    ghost use Rattle.std.specs.Prelude.{OnOk};
    ghost use Rattle.sd_plan.specs.domain.Lone.{IsDomain};
    ghost use Rattle.sd_plan.specs.topo.Topologies.{network};
    ghost use Rattle.sd_checker.specs.check_hit.Outages.{HasRoom, IsImpactOf};

    /// Room for what a domain of the topology fails and hits.
    pub fn new(alloc: Global, topo: &Topology) -> Result<Impact, NoMemory>
        ensures { IfOk result (HasRoom (network topo.now)) }
    {
        let failed = Failure::new(alloc, topo)?;
        let places = no_places(alloc, topo.devices())?;
        Ok(Impact {
            failed,
            hit: DeviceList::new(alloc),
            places,
        })
    }

    /// Finds what a domain fails and hits.
    pub fn strike(
        &mut self,
        alloc: Global,
        planned: IndexedPlan<'_>,
        domain: DomainId,
    ) -> Result<(), NoMemory>
        requires domain { IsDomain (network planned.topo.now) domain }
        requires room { HasRoom (network planned.topo.now) self.old }
        ensures impact { OnOk result
            (IsImpactOf (network planned.entry.topo.now) planned.entry.plan.now domain self.new) }
        ensures room { HasRoom (network planned.entry.topo.now) self.new }
    {
        self.hit = hit_devices(alloc, planned.topo, planned.plan, planned.index, domain)?;
        self.failed.set_to(planned.topo, domain);
        note_places(&mut self.places, self.hit.as_slice());
        Ok(())
    }

    /// The domain over the plan.
    pub fn outage<'a>(&'a self, planned: IndexedPlan<'a>, domain: DomainId) -> Outage<'a>
        requires { IsImpactOf (network planned.topo.now) planned.plan.now domain self.now }
        ensures planned { result.planned ≡ planned.entry }
        ensures domain { result.domain ≡ domain }
    {
        Outage {
            planned,
            domain,
            failed: &self.failed,
            hit: self.hit.as_slice(),
            places: self.places.as_slice(),
        }
    }
}
