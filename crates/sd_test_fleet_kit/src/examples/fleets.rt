//! Fleets over the examples.
ghost use Rattle.std.specs.Prelude.{[], IfOk};
ghost use Rattle.sd_history.specs.World.{Setting};
ghost use Rattle.sd_fleet.specs.Standing.{StandsFor};

use crate::examples::plans::{NoPlans, plans_of};
use crate::examples::texts::Example;
use sd_device::Node;
use sd_fleet::Fleet;
use sd_num::NoMemory;
use sd_plan::topo::Topology;
use sd_topotext::{TopoFault, read_topology};
use std::alloc::Global;

/// Why there is no fleet of an example.
#[derive(Debug, Drop)]
pub enum NoFleet {
    /// The text of its topology is refused.
    Topology(TopoFault),
    /// It has no plans that a fleet can follow.
    Plans(NoPlans),
    Memory,
}

impl From<NoPlans> for NoFleet {
    fn from(cause: NoPlans) -> NoFleet {
        NoFleet::Plans(cause)
    }
}

impl From<NoMemory> for NoFleet {
    fn from(_: NoMemory) -> NoFleet {
        NoFleet::Memory
    }
}

/// A fleet over a topology with the plans of some texts, before any event.
pub fn fleet_over<N: Node>(
    alloc: Global,
    topo: &Topology,
    plans: &[&str],
) -> Result<Fleet<N>, NoFleet>
    ensures { IfOk result (λ fleet. (setting : Setting) × StandsFor N.Node fleet setting []) }
{
    let plans = plans_of(alloc, topo, plans)?;
    Ok(Fleet::new(alloc, topo, plans.as_slice())?)
}

/// A fleet of an example, before any event.
pub fn fleet_of<N: Node>(alloc: Global, example: &Example) -> Result<Fleet<N>, NoFleet>
    ensures { IfOk result (λ fleet. (setting : Setting) × StandsFor N.Node fleet setting []) }
{
    match read_topology(alloc, example.topology.as_bytes()) {
        Ok(topo) => fleet_over(alloc, &topo, example.plans),
        Err(fault) => Err(NoFleet::Topology(fault)),
    }
}
