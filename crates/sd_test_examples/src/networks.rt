//! The networks that are read, with the shape that proofs know them by.
ghost use Rattle.std.specs.Prelude.{◌≡◌, ◌<◌, length, IfOk, IsTrue, ◌↔◌};
ghost use Rattle.sd_plan.specs.topo.Topologies.{network};
ghost use Rattle.sd_plan.specs.Examples.{HasEnds, IsFabric, IsSquare};

use crate::texts::{FABRIC, SQUARE_TRAY};
use sd_plan::topo::Topology;
use sd_topotext::{TopoFault, read_topology};
use std::alloc::Global;

/// Why an example cannot be had.
#[derive(Debug, Drop)]
pub enum NoExample {
    /// Its text is refused.
    Refused(TopoFault),
    /// It is read as a network of another shape.
    Misshapen,
}

/// The topology of a text. It promises nothing, so that no proof looks into the text.
pub fn topology_of(alloc: Global, text: &str) -> Result<Topology, NoExample> {
    match read_topology(alloc, text.as_bytes()) {
        Ok(topo) => Ok(topo),
        Err(fault) => Err(NoExample::Refused(fault)),
    }
}

/// Whether a link goes from the first device to the second.
fn has_ends(topo: &Topology, l: u32, a: u32, b: u32) -> bool
    requires { l < length (network topo.now).links }
    ensures { IsTrue result ↔ HasEnds (network topo.now) l a b }
{
    let link = topo.link(l);
    link.end_a == a && link.end_b == b
}

/// Two spines and three leaves: `FABRIC`.
pub fn fabric(alloc: Global) -> Result<Topology, NoExample>
    ensures { IfOk result (λ topo. IsFabric (network topo)) }
{
    let topo = topology_of(alloc, FABRIC)?;
    if topo.devices() != 5 || topo.links() != 6 || topo.params().depth != 3 {
        return Err(NoExample::Misshapen);
    }
    if !has_ends(&topo, 0, 0, 2) || !has_ends(&topo, 1, 0, 3) || !has_ends(&topo, 2, 0, 4) {
        return Err(NoExample::Misshapen);
    }
    if !has_ends(&topo, 3, 1, 2) || !has_ends(&topo, 4, 1, 3) || !has_ends(&topo, 5, 1, 4) {
        return Err(NoExample::Misshapen);
    }
    Ok(topo)
}

/// Four devices in a ring with a diagonal, of which two links may fail together: `SQUARE_TRAY`.
pub fn square(alloc: Global) -> Result<Topology, NoExample>
    ensures { IfOk result (λ topo. IsSquare (network topo)) }
{
    let topo = topology_of(alloc, SQUARE_TRAY)?;
    if topo.devices() != 4 || topo.links() != 5 || topo.params().depth != 3 {
        return Err(NoExample::Misshapen);
    }
    if !has_ends(&topo, 0, 0, 1) || !has_ends(&topo, 1, 0, 2) || !has_ends(&topo, 2, 1, 2) {
        return Err(NoExample::Misshapen);
    }
    if !has_ends(&topo, 3, 1, 3) || !has_ends(&topo, 4, 2, 3) {
        return Err(NoExample::Misshapen);
    }
    Ok(topo)
}
