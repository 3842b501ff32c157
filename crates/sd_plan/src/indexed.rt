//! A plan that fits its topology and is well structured, with the index of its walks.
ghost use Rattle.std.proofs.Props.{props};
ghost use Rattle.sd_plan.specs.topo.Topologies.{network};
ghost use Rattle.sd_plan.specs.Props.{IsRow-prop};
ghost use Rattle.sd_plan.specs.IndexedPlan.{IsIndexOf};

use crate::topo::Topology;
use crate::{Plan, WalkIndex};

/// A topology, a plan of right structure that fits it, and the index of the plan's walks.
#[derive(Clone, Copy)]
pub struct IndexedPlan<'a> {
    pub topo: &'a Topology,
    pub plan: &'a Plan,
    pub index: &'a WalkIndex,
    pub ghost is_index: { IsIndexOf (network topo.now) plan.now
        index.now } by { Prim.hlevel (props, IsRow-prop) },
}
