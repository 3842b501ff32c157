//! The conditions in their order, up to the first that a plan breaks.
ghost use Rattle.std.specs.Prelude.{IfOk};
ghost use Rattle.sd_checker.specs.Findings.{Finds};
ghost use Rattle.sd_checker.specs.Verdicts.{IsVerdict};
ghost use Rattle.sd_plan.specs.Plans.{Fits};
ghost use Rattle.sd_plan.specs.topo.Topologies.{network};

use crate::ancestor::ancestor_breach;
use crate::check_root::timing_breach;
use crate::hits::hit_breach;
use crate::roots::first_root_breach;
use crate::{Breach, Verdict};
use sd_num::NoMemory;
use sd_plan::topo::Topology;
use sd_plan::{IndexedPlan, Plan, WalkIndex, structure_breach};
use std::alloc::Global;

/// The first breach of a plan of right structure.
fn breach_beyond_structure(
    alloc: Global,
    planned: IndexedPlan<'_>,
) -> Result<Option<Breach>, NoMemory>
    ensures { IfOk result (Finds (network planned.entry.topo.now) planned.entry.plan.now) }
{
    if let Some(device) = ancestor_breach(planned) {
        return Ok(Some(Breach::Ancestor { device }));
    }
    if let Some(timing) = timing_breach(planned.topo, planned.plan) {
        return Ok(Some(Breach::Timing(timing)));
    }
    if let Some((domain, at)) = first_root_breach(planned) {
        return Ok(Some(Breach::Root { domain, at }));
    }
    hit_breach(alloc, planned)
}

/// Judges a plan: accepted, or refused with its first breach in the order of the conditions, then of
/// the domains, then the lowest device.
///
/// ```text
/// let topo = read_topology(alloc, topology_bytes)?;
/// let plan = read_plan(alloc, plan_bytes, &topo)?;
/// let line = match check(alloc, &topo, &plan)? {
///     Verdict::Accepted => accepted_line(alloc, &topo)?,
///     Verdict::Refused(breach) => refused_line(alloc, &topo, 1, &breach)?,
/// };
/// ```
pub fn check(alloc: Global, topo: &Topology, plan: &Plan) -> Result<Verdict, NoMemory>
    requires { Fits (network topo.now) plan.now }
    ensures { IfOk result (IsVerdict (network topo.now) plan.now) }
{
    if let Some((rule, device)) = structure_breach(topo, plan) {
        let rule = rule.number();
        return Ok(Verdict::Refused(Breach::Structure { rule, device }));
    }
    let index = WalkIndex::new(alloc, topo, plan)?;
    let planned = IndexedPlan {
        topo,
        plan,
        index: &index,
    };
    match breach_beyond_structure(alloc, planned)? {
        Some(breach) => Ok(Verdict::Refused(breach)),
        None => Ok(Verdict::Accepted),
    }
}
