//! Plans that the checker accepts.
ghost use Rattle.std.specs.Prelude.{◌≤◌, ◌<◌, ◌^◌, length, IfOk};
ghost use Rattle.sd_plan.specs.topo.Topologies.{network};
ghost use Rattle.sd_plan.specs.topo.Network.{Each as OfEach};
ghost use Rattle.sd_plan.specs.Plans.{Fits};
ghost use Rattle.sd_checker.specs.Conditions.{IsAccepted};

use sd_checker::{Verdict, check};
use sd_num::NoMemory;
use sd_plan::Plan;
use sd_plan::topo::Topology;
use sd_plantext::{PlanFault, read_plan};
use std::alloc::Global;

/// Why there are no accepted plans.
#[derive(Debug, Drop)]
pub(super) enum NoPlans {
    /// The text of a plan is refused.
    Text(PlanFault),
    /// The checker refuses the plan.
    Refused,
    /// There is no plan, or there are more than a hundred.
    Count,
    Memory,
}

impl From<NoMemory> for NoPlans {
    fn from(_: NoMemory) -> NoPlans {
        NoPlans::Memory
    }
}

/// The plan of a text, where it is accepted.
fn accepted_plan(alloc: Global, topo: &Topology, text: &str) -> Result<Plan, NoPlans>
    ensures fits { IfOk result (Fits (network topo.now)) }
    ensures accepted { IfOk result (IsAccepted (network topo.now)) }
{
    let plan = match read_plan(alloc, topo, text.as_bytes()) {
        Ok(plan) => plan,
        Err(fault) => return Err(NoPlans::Text(fault)),
    };
    match check(alloc, topo, &plan)? {
        Verdict::Accepted => Ok(plan),
        Verdict::Refused(_) => Err(NoPlans::Refused),
    }
}

/// The plans of some texts, in their order.
pub(super) fn accepted_plans(
    alloc: Global,
    topo: &Topology,
    texts: &[&str],
) -> Result<Vec<Plan>, NoPlans>
    ensures fit { IfOk result (λ plans. OfEach (Fits (network topo.now)) plans.items) }
    ensures accepted { IfOk result (λ plans. OfEach (IsAccepted (network topo.now)) plans.items) }
    ensures some { IfOk result (λ plans. 1 ≤ length plans.items) }
    ensures count { IfOk result (λ plans. length plans.items < 2 ^ 32) }
{
    if texts.is_empty() || texts.len() > 100 {
        return Err(NoPlans::Count);
    }
    let mut plans = Vec::new(alloc);
    for text in texts {
        let plan = accepted_plan(alloc, topo, text)?;
        let Ok(()) = plans.push(plan) else {
            return Err(NoPlans::Memory);
        };
    }
    Ok(plans)
}
