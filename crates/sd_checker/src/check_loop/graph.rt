//! The hit devices as a graph: each leads to those of its parents that are hit too.
ghost use Rattle.std.specs.Prelude.{◌≡◌, ◌<◌, length, IfOk, IfSome};
ghost use Rattle.sd_checker.specs.check_loop.Graphs as graphs;
ghost use Rattle.sd_checker.specs.check_hit.Outages.{net_of, plan_of};

use crate::check_hit::Outage;
use sd_num::NoMemory;
use sd_plan::{Hop, backup_of, primary_of};
use std::alloc::Global;

/// The places, in the list of the hit devices, of the parents that are hit too.
#[derive(Clone, Copy, Debug, PartialEq, Eq)]
pub(crate) struct Successors {
    pub(crate) primary: Option<usize>,
    pub(crate) backup: Option<usize>,
}

/// The place of the device that a hop leads to, if it is hit.
fn parent_place(outage: &Outage<'_>, hop: Option<Hop>) -> Option<usize>
    requires { IfSome hop (λ hop. hop.parent < length (net_of outage.now).devices) }
    ensures { result ≡ graphs.parent_place outage.now.hit.now hop }
{
    match hop {
        Some(hop) => outage.place_of(hop.parent),
        None => None,
    }
}

/// Where a hit device leads: nowhere from the root and the backup root.
#[tactic(auto, unfolding(crate::specs::check_loop::Graphs::successors_of))]
fn successors_of(outage: &Outage<'_>, d: u32) -> Successors
    requires { d < length (net_of outage.now).devices }
    ensures { result ≡ graphs.successors_of (plan_of outage.now) outage.now.hit.now d }
{
    let plan = outage.planned.plan;
    if d == plan.root || d == plan.backup_root {
        return Successors {
            primary: None,
            backup: None,
        };
    }
    let primary = primary_of(plan, d);
    let backup = backup_of(plan, d);
    Successors {
        primary: parent_place(outage, primary),
        backup: parent_place(outage, backup),
    }
}

/// Where each hit device leads.
pub(crate) fn graph_of(alloc: Global, outage: &Outage<'_>) -> Result<Vec<Successors>, NoMemory>
    ensures { IfOk result (λ graph. graph.items
        ≡ graphs.graph_of (plan_of outage.now) outage.now.hit.now) }
{
    let Ok(mut graph) = Vec::with_capacity(alloc, outage.hit.len()) else {
        return Err(NoMemory);
    };
    for d in outage.hit {
        graph.push_reserved(successors_of(outage, *d));
    }
    Ok(graph)
}
