//! The topology of leaves and spines, made of its parts.
ghost use Rattle.std.specs.Prelude.{◌≡◌, ◌≤◌, IfOk};
ghost use Rattle.sd_plan.specs.topo.Topologies.{network};
ghost use Rattle.sd_gen.specs.fabric.Fabrics.{fabric};

use crate::fabric::parts::{devices, links, numbers_from, racks};
use sd_num::NoMemory;
use sd_plan::topo::{Params, Parts, Topology};
use std::alloc::Global;

/// The numbers at the top.
const PARAMS: Params = Params {
    ppm: 200,
    grain: 1000,
    period: 100_000_000,
    tick: 60_000_000,
    loss: 1,
    depth: 3,
};

/// The topology that the text of `fabric_text` is read as, without the text.
pub fn fabric_topology(alloc: Global, leaves: u32, spines: u32) -> Result<Topology, NoMemory>
    requires some_leaves { 2 ≤ leaves }
    requires few_leaves { leaves ≤ 256 }
    requires some_spines { 3 ≤ spines }
    requires few_spines { spines ≤ 32 }
    ensures { IfOk result (λ topo. network topo ≡ fabric leaves spines) }
{
    let devices = devices(alloc, leaves, spines)?;
    let links = links(alloc, leaves, spines)?;
    let domains = racks(alloc, leaves, spines)?;
    let roots = numbers_from(alloc, 0, spines)?;
    Ok(Topology::new(Parts {
        version: 1,
        params: PARAMS,
        devices,
        links,
        domains,
        roots,
    }))
}
