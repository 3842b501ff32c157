//! Making a plan, and what is written of it.
ghost use Rattle.std.specs.Prelude.{◌≡◌, ◌<◌, [], ◌∷◌, length, IsTrue, IfErr, IfOk};
ghost use Rattle.sd_plan.specs.Plans.{Fits};
ghost use Rattle.sd_plan.specs.topo.Topologies.{network};
ghost use Rattle.sd_files.specs.Writes.{IsAllowed};
ghost use Rattle.sd_top.specs.Gives.{GivesAmong};
ghost use Rattle.sd_top.specs.Plannings.{IsPlanning};
ghost use Rattle.sd_top.specs.PlannedAnswers.{IfPlan, text_of_planned, status_of_planned};
ghost use Rattle.sd_planner.specs.Absences.{IsAbsentOf};

use sd_files::{Answer, CommandError, Status, refused_plan};
use sd_plan::Absent;
use sd_plan::topo::Topology;
use sd_planner::{Planned, plan_for};
use sd_plantext::plan_text;
use std::alloc::Global;

/// The text of a plan that was made, or the line of its breach.
fn planned_answer(alloc: Global, topo: &Topology, planned: &Planned) -> Result<Answer, CommandError>
    requires { IfPlan (Fits (network topo.now)) planned.now }
    ensures text { IfOk result (λ answer. answer.text.items
        ≡ text_of_planned (network topo.now) planned.now) }
    ensures status { IfOk result (λ answer. answer.status ≡ status_of_planned planned.now) }
    ensures only { IfErr result (λ why. why ≡ CommandError.Memory) }
{
    match planned {
        Planned::Plan(plan) => Ok(Answer {
            text: plan_text(alloc, topo, plan)?,
            status: Status::Done,
        }),
        Planned::NoPlan(_, breach) => Ok(refused_plan(alloc, topo, 1, breach)?),
    }
}

/// Makes the greedy plan from a root without what is absent: its text, or the line of its breach.
#[tactic(auto, using(crate::proofs::Planned::planned_fits))]
pub fn planning(
    alloc: Global,
    topo: &Topology,
    root: u32,
    absent: &Absent,
) -> Result<Answer, CommandError>
    requires root { root < length (network topo.now).devices }
    requires absent { IsAbsentOf (network topo.now) absent.now }
    ensures makes { IsAllowed (IsPlanning (network topo.now) root absent.now) result }
    ensures gives { GivesAmong
        (Status.Done ∷ Status.PlanRefused ∷ Status.InputRefused ∷ []) result }
    ensures only { IfErr result (λ why. why ≡ CommandError.Memory) }
{
    let planned = plan_for(alloc, topo, root, absent)?;
    planned_answer(alloc, topo, &planned)
}
