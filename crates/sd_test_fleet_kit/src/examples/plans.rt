//! Plans that a fleet can follow.
ghost use Rattle.std.specs.Prelude.{◌≤◌, ◌<◌, ◌^◌, length, IfOk};
ghost use Rattle.sd_plan.specs.topo.Topologies.{network};
ghost use Rattle.sd_world.specs.membership.Plans.{IsFollowable, AreSound};

use sd_plan::topo::Topology;
use sd_plan::{Plan, Rule, structure_breach};
use sd_plantext::{PlanFault, read_plan};
use std::alloc::Global;

/// Why there are no plans that a fleet can follow.
#[derive(Debug, Drop)]
pub enum NoPlans {
    /// The text of a plan is refused.
    Plan(PlanFault),
    /// A plan breaks a rule of structure, first at this device.
    Unsound(Rule, u32),
    /// There is no plan, or there are more than a hundred.
    Count,
    Memory,
}

/// The plan of a text, where it has the right structure.
fn plan_of(alloc: Global, topo: &Topology, text: &str) -> Result<Plan, NoPlans>
    ensures { IfOk result (IsFollowable (network topo.now)) }
{
    let plan = match read_plan(alloc, topo, text.as_bytes()) {
        Ok(plan) => plan,
        Err(fault) => return Err(NoPlans::Plan(fault)),
    };
    match structure_breach(topo, &plan) {
        None => Ok(plan),
        Some((rule, device)) => Err(NoPlans::Unsound(rule, device)),
    }
}

/// The plans of some texts, in their order.
pub fn plans_of(alloc: Global, topo: &Topology, texts: &[&str]) -> Result<Vec<Plan>, NoPlans>
    ensures sound { IfOk result (λ plans. AreSound (network topo.now) plans.items) }
    ensures some { IfOk result (λ plans. 1 ≤ length plans.items) }
    ensures count { IfOk result (λ plans. length plans.items < 2 ^ 32) }
{
    if texts.is_empty() || texts.len() > 100 {
        return Err(NoPlans::Count);
    }
    let mut plans = Vec::new(alloc);
    for text in texts {
        let plan = plan_of(alloc, topo, text)?;
        let Ok(()) = plans.push(plan) else {
            return Err(NoPlans::Memory);
        };
    }
    Ok(plans)
}
