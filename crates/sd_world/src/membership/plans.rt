//! The plans of a command by their numbers, from 1.
ghost use Rattle.std.specs.Prelude.{◌≡◌, ◌<◌, ◌^◌, None, length, IfOk};
ghost use Rattle.sd_plan.specs.topo.Topologies.{network};
ghost use Rattle.sd_plan.specs.Plans.{Fits};
ghost use Rattle.sd_plan.specs.Structure.{structure_breach};

use sd_num::NoMemory;
use sd_plan::topo::Topology;
use sd_plan::{Plan, PlanTable};
use std::alloc::Global;

/// A plan with its number.
#[derive(Drop)]
pub struct NumberedPlan {
    pub root: u32,
    pub table: PlanTable,
}

impl NumberedPlan {
    ghost use Rattle.sd_world.specs.membership.Plans.{numbered_as};

    /// The plan as the one with this number.
    fn new(
        alloc: Global,
        topo: &Topology,
        plan: &Plan,
        epoch: u32,
    ) -> Result<NumberedPlan, NoMemory>
        requires fits { Fits (network topo.now) plan.now }
        requires structured { structure_breach (network topo.now) plan.now ≡ None }
        ensures { IfOk result (λ n. n ≡ numbered_as (network topo.now) epoch plan.now) }
    {
        let table = PlanTable::new(alloc, topo, plan, epoch)?;
        Ok(NumberedPlan {
            root: plan.root,
            table,
        })
    }
}

ghost use Rattle.sd_world.specs.membership.Plans.{AreSound, IsNumber, numbered, table_numbered, is_member_numbered};

/// Whether the device is a member of the plan with this number.
pub fn is_member(plans: &[NumberedPlan], epoch: u32, d: u32) -> bool
    requires number { IsNumber plans.now epoch }
    requires range { d < length (table_numbered plans.now epoch) }
    ensures { result ≡ is_member_numbered plans.now epoch d }
{
    plans[epoch as usize - 1].table.is_member(d)
}

/// The plans with their numbers, of which the first has 1.
pub fn number_all(
    alloc: Global,
    topo: &Topology,
    plans: &[Plan],
) -> Result<Vec<NumberedPlan>, NoMemory>
    requires sound { AreSound (network topo.now) plans.now }
    requires count { length plans.now < 2 ^ 32 }
    ensures { IfOk result (λ all. all.items ≡ numbered (network topo.now) plans.now) }
{
    let mut all = Vec::new(alloc);
    let mut epoch = 0;
    for plan in plans {
        epoch += 1;
        let numbered = NumberedPlan::new(alloc, topo, plan, epoch)?;
        let Ok(()) = all.push(numbered) else {
            return Err(NoMemory);
        };
    }
    Ok(all)
}
