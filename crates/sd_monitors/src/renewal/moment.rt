//! What an event is judged by.
ghost use Rattle.std.specs.Prelude.{◌≡◌, length};
ghost use Rattle.sd_plan.specs.topo.Topologies.{network};

use crate::clocks::PresentRows;
use sd_plan::topo::Topology;
use sd_world::world::World;

/// What an event is judged by: the network, who and what takes part in each plan, and the world
/// before the event.
#[derive(Clone, Copy)]
pub struct Moment<'a> {
    pub topo: &'a Topology,
    pub members: &'a PresentRows,
    pub links: &'a PresentRows,
    pub world: &'a World,
    pub ghost device_count: { length world.now.devices ≡ length (network topo.now).devices },
    pub ghost link_count: { length world.now.failed_links ≡ length (network topo.now).links },
}
