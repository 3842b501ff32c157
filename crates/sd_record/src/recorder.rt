//! What a recorder keeps.
ghost use Rattle.std.specs.Prelude.{◌≡◌, ◌≤◌, ◌<◌, ◌^◌, List, [], length, IfOk};
ghost use Rattle.sd_plan.specs.topo.Topologies.{network};
ghost use Rattle.sd_sched.specs.declared.Event.{Event as AnyEvent};
ghost use Rattle.sd_world.specs.membership.Plans.{AreSound};
ghost use Rattle.sd_history.specs.World.{Setting};
ghost use Rattle.sd_history.specs.Chronicle.{IsHistory};
ghost use Rattle.sd_record.specs.Standing.{StandsFor};

use crate::endings::Endings;
use crate::names::Names;
use sd_device::Device;
use sd_fleet::Fleet;
use sd_num::NoMemory;
use sd_plan::Plan;
use sd_plan::topo::Topology;
use std::alloc::Global;

/// Records a schedule over a topology and plans.
#[derive(Drop)]
pub struct Recorder {
    pub(crate) fleet: Fleet<Device>,
    /// The messages with numbers up to this were looked at.
    pub(crate) looked: u64,
    /// The ending of each of these that is on its way.
    pub(crate) endings: Endings,
    /// Each of these by its name.
    pub(crate) names: Names,
    /// The lines of the latest entry.
    pub(crate) text: Vec<u8>,
}

impl Recorder {
    /// A recorder of no entry.
    pub fn new(alloc: Global, topo: &Topology, plans: &[Plan]) -> Result<Recorder, NoMemory>
        requires some { 1 ≤ length plans.now }
        requires count { length plans.now < 2 ^ 32 }
        requires sound { AreSound (network topo.now) plans.now }
        ensures { IfOk result (λ recorder. (setting : Setting) → setting.net ≡ network topo.now
            → setting.plans ≡ plans.now → StandsFor recorder setting []) }
    {
        let fleet = Fleet::new(alloc, topo, plans)?;
        Ok(Recorder {
            fleet,
            looked: 0,
            endings: Endings::new(alloc),
            names: Names::new(alloc),
            text: Vec::new(alloc),
        })
    }

    /// The lines of the latest entry that was taken.
    pub fn lines(&self) -> &[u8]
        ensures lines { result.now ≡ self.now.text.items }
        // Each event is accepted after those before it.
        ensures accepted { (setting : Setting) (events : List AnyEvent)
            → StandsFor self.now setting events → IsHistory setting events }
    {
        self.text.as_slice()
    }
}
