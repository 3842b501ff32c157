//! What the events of a world are judged on.
ghost use Rattle.std.specs.Prelude.{◌≡◌, [], IfOk};
ghost use Rattle.sd_plan.specs.topo.Topologies.{network};
ghost use Rattle.sd_history.specs.World.{Setting};
ghost use Rattle.sd_world.specs.membership.Plans.{AreSound};
ghost use Rattle.sd_world.specs.world.Standing.{Stands};
ghost use Rattle.sd_monitors.specs.clocks.Memberships.{AreMembers, ArePresent};

use sd_monitors::clocks::PresentRows;
use sd_num::NoMemory;
use sd_plan::Plan;
use sd_plan::topo::Topology;
use sd_world::world::World;
use std::alloc::Global;

/// What the monitors ask: the topology, what the plans say of it, and the world in registers.
#[derive(Drop)]
pub(crate) struct MonitorInputs {
    pub(crate) topology: Topology,
    pub(crate) members: PresentRows,
    pub(crate) links: PresentRows,
    pub(crate) world: World,
}

impl MonitorInputs {
    /// Before any event, with a copy of the topology.
    pub(crate) fn new(
        alloc: Global,
        topo: &Topology,
        plans: &[Plan],
    ) -> Result<MonitorInputs, NoMemory>
        requires sound { AreSound (network topo.now) plans.now }
        ensures network { IfOk result (λ inputs. network inputs.topology ≡ network topo.now) }
        ensures members { IfOk result (λ inputs. (setting : Setting)
            → setting.net ≡ network topo.now → setting.plans ≡ plans.now
            → AreMembers setting inputs.members) }
        ensures links { IfOk result (λ inputs. (setting : Setting)
            → setting.net ≡ network topo.now → setting.plans ≡ plans.now
            → ArePresent setting inputs.links) }
        ensures world { IfOk result (λ inputs. (setting : Setting)
            → setting.net ≡ network topo.now → Stands inputs.world setting []) }
    {
        let members = PresentRows::of_devices(alloc, topo, plans)?;
        let links = PresentRows::of_links(alloc, topo, plans)?;
        let world = World::new(alloc, topo.devices(), topo.links())?;
        // Last, since each exit after it would drop it: it is the largest.
        let topology = topo.copy(alloc)?;
        Ok(MonitorInputs {
            topology,
            members,
            links,
            world,
        })
    }
}
