//! Which events of a schedule a fleet accepts.
ghost use Rattle.std.specs.Prelude.{◌≡◌, ◌≤◌, ◌<◌, ◌^◌, [], length, IfOk};
ghost use Rattle.sd_plan.specs.topo.Topologies.{network};
ghost use Rattle.sd_world.specs.membership.Plans.{AreSound};
ghost use Rattle.sd_history.specs.World.{Setting};
ghost use Rattle.sd_gen.specs.Recording.{StandsFor};

use crate::EventList;
use crate::driven::Driven;
use sd_device::Device;
use sd_fleet::{ApplyFault, Fleet, Outcome};
use sd_num::NoMemory;
use sd_plan::Plan;
use sd_plan::topo::Topology;
use sd_sched::Event;
use std::alloc::Global;

/// A fleet, and each event that it has accepted.
#[derive(Drop)]
pub(crate) struct Recording {
    fleet: Fleet<Device>,
    events: EventList,
}

impl Recording {
    /// Before any event.
    pub fn new(alloc: Global, topo: &Topology, plans: &[Plan]) -> Result<Recording, NoMemory>
        requires some { 1 ≤ length plans.now }
        requires count { length plans.now < 2 ^ 32 }
        requires sound { AreSound (network topo.now) plans.now }
        ensures { IfOk result (λ recording. (setting : Setting) → setting.net ≡ network topo.now
            → setting.plans ≡ plans.now → StandsFor recording setting []) }
    {
        let fleet = Fleet::new(alloc, topo, plans)?;
        Ok(Recording {
            fleet,
            events: EventList::new(alloc),
        })
    }

    /// The events that were accepted.
    pub fn into_events(self) -> EventList
        ensures { result ≡ self.events }
    {
        self.events
    }
}

impl Driven for Recording {
    ghost stands = { λ recording setting run. StandsFor recording setting run };

    fn offer(
        &mut self,
        alloc: Global,
        event: &Event,
        outcome: &mut Outcome,
    ) -> Result<bool, NoMemory> {
        match self.fleet.prepare(alloc, event) {
            Ok(_) => {}
            Err(ApplyFault::Memory) => return Err(NoMemory),
            Err(_) => return Ok(false),
        }
        self.events.push(alloc, *event)?;
        self.fleet.happen(event, outcome);
        Ok(true)
    }

    fn fleet(&self) -> &Fleet<Device> {
        &self.fleet
    }
}
