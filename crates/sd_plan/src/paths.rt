//! Paths along primary parents.
ghost use Rattle.std.specs.Prelude.{◌≡◌, ◌<◌, ◌++◌, [], ◌∷◌, length, IfOk, OnOk};
ghost use Rattle.sd_plan.specs.topo.Topologies.{network};
ghost use Rattle.sd_plan.specs.Cuts.{ends_at};
ghost use Rattle.sd_plan.specs.Plans.{Fits};
ghost use Rattle.sd_plan.specs.Plans as plans;
ghost use Rattle.sd_plan.specs.Walks as walks;

use crate::hops::primary_of;
use crate::topo::{Thing, Topology};
use crate::{Hop, Plan, ThingList};
use sd_num::NoMemory;
use std::alloc::Global;

/// Where a path ends.
#[derive(Clone, Copy)]
enum Cut {
    Root,
    /// At the root or the backup root, whichever it comes to first.
    EitherRoot,
}

impl Cut {
    /// Whether the path ends at a device.
    fn is_at(self, plan: &Plan, d: u32) -> bool
        ensures { result ≡ ends_at self plan.now d }
    {
        match self {
            Cut::Root => d == plan.root,
            Cut::EitherRoot => d == plan.root || d == plan.backup_root,
        }
    }
}

/// Adds the link of a hop and the device that it leads to.
fn add_hop(alloc: Global, things: &mut ThingList, hop: Hop) -> Result<(), NoMemory>
    ensures { OnOk result (things.new ≡ things.old ++ walks.things_of (hop ∷ [])) }
{
    things.push(alloc, Thing::Link(hop.link))?;
    things.push(alloc, Thing::Device(hop.parent))
}

/// The things of the hops from a device on, until one leads to the cut.
fn cut_path(
    alloc: Global,
    topo: &Topology,
    plan: &Plan,
    d: u32,
    cut: Cut,
) -> Result<ThingList, NoMemory>
    requires fits { Fits (network topo.now) plan.now }
    requires range { d < length (network topo.now).devices }
    ensures { IfOk result (λ things. things
        ≡ walks.things_of
        (walks.hops (ends_at cut plan.now) plan.now (network topo.now).params.depth d)) }
{
    let mut things = ThingList::new(alloc);
    let mut here = d;
    let mut left = topo.params().depth;
    while left > 0 {
        let Some(hop) = primary_of(plan, here) else {
            return Ok(things);
        };
        add_hop(alloc, &mut things, hop)?;
        if cut.is_at(plan, hop.parent) {
            return Ok(things);
        }
        here = hop.parent;
        left -= 1;
    }
    Ok(things)
}

/// The links and devices of the walk of a device to the root, without the device itself.
pub fn path(alloc: Global, topo: &Topology, plan: &Plan, d: u32) -> Result<ThingList, NoMemory>
    requires fits { Fits (network topo.now) plan.now }
    requires range { d < length (network topo.now).devices }
    ensures { IfOk result (λ things. things ≡ walks.path (network topo.now) plan.now d) }
{
    if d == plan.root {
        return Ok(ThingList::new(alloc));
    }
    cut_path(alloc, topo, plan, d, Cut::Root)
}

/// The path of a device, cut at the first of backup root and root that it comes to.
pub fn epath(alloc: Global, topo: &Topology, plan: &Plan, d: u32) -> Result<ThingList, NoMemory>
    requires fits { Fits (network topo.now) plan.now }
    requires range { d < length (network topo.now).devices }
    ensures { IfOk result (λ things. things ≡ walks.epath (network topo.now) plan.now d) }
{
    if d == plan.root {
        return Ok(ThingList::new(alloc));
    }
    cut_path(alloc, topo, plan, d, Cut::EitherRoot)
}
