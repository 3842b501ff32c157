//! A search, and what is written of what it found.
ghost use Rattle.std.specs.Prelude.{◌≡◌, ◌<◌, ◌++◌, [], ◌∷◌, length, Some, IsTrue, IfErr, IfOk, IfSome};
ghost use Rattle.sd_files.specs.Statuses.{is_among};
ghost use Rattle.sd_files.specs.Writes.{IsAllowed};
ghost use Rattle.sd_drill.specs.Budgets.{IsBudget};
ghost use Rattle.sd_planner.specs.Absences.{IsAbsentOf};
ghost use Rattle.sd_ctl_top.specs.Findings.{FitsFound, IsFinding, IsToldWith, IsWhyNone, found_status, found_text, none_text};
ghost use Rattle.sd_checker.specs.Text.{refused_line};
ghost use Rattle.sd_why.specs.Text as text;
ghost use Rattle.sd_plan.specs.topo.Topologies.{network};

use crate::reasons::told as reason_line;
use sd_checker::Breach;
use sd_files::{Answer, CommandError, Status, refused_plan};
use sd_num::NoMemory;
use sd_plan::Absent;
use sd_plan::topo::Topology;
use sd_plantext::plan_text;
use sd_search::{Found, Settings, search};
use sd_why::{Reason, why, why_text};
use std::alloc::Global;

/// The first reason of a topology why it has no plan, where nothing is absent.
fn why_none(alloc: Global, topo: &Topology, absent: &Absent) -> Result<Option<Reason>, NoMemory>
    ensures { IfOk result (IsWhyNone (network topo.now) absent.now) }
{
    if absent.devices.as_slice().is_empty() && absent.links.as_slice().is_empty() {
        why(alloc, topo)
    } else {
        Ok(None)
    }
}

/// The reason that is told with what was found.
fn told_with(
    alloc: Global,
    topo: &Topology,
    absent: &Absent,
    found: &Found,
) -> Result<Option<Reason>, NoMemory>
    ensures { IfOk result (IsToldWith (network topo.now) absent.now found.now) }
{
    match found {
        Found::Plan(_) => Ok(None),
        Found::NoPlan(..) => why_none(alloc, topo, absent),
    }
}

/// The line of a breach, and then that of a reason.
fn breach_and_reason(
    alloc: Global,
    topo: &Topology,
    breach: &Breach,
    reason: Reason,
) -> Result<Answer, CommandError>
    ensures text { IfOk result (λ answer. answer.text.items
        ≡ refused_line (network topo.now) 1 breach.now
        ++ text.why_text (network topo.now) (Some reason)) }
    ensures status { IfOk result (λ answer. answer.status ≡ Status.PlanRefused) }
    ensures only { IfErr result (λ why. why ≡ CommandError.Memory) }
{
    let mut answer = refused_plan(alloc, topo, 1, breach)?;
    let line = why_text(alloc, topo, Some(reason))?;
    match answer.text.extend_from_slice(line.as_bytes()) {
        Ok(()) => Ok(answer),
        Err(_) => Err(CommandError::Memory),
    }
}

/// The lines of why there is no plan: a breach, and the reason that is told.
fn none_answer(
    alloc: Global,
    topo: &Topology,
    breach: &Breach,
    told: Option<Reason>,
) -> Result<Answer, CommandError>
    ensures text { IfOk result (λ answer. answer.text.items
        ≡ none_text (network topo.now) breach.now told) }
    ensures status { IfOk result (λ answer. answer.status ≡ Status.PlanRefused) }
    ensures only { IfErr result (λ why. why ≡ CommandError.Memory) }
{
    match told {
        None => Ok(refused_plan(alloc, topo, 1, breach)?),
        Some(Reason::Candidates(_)) => reason_line(alloc, topo, told),
        Some(reason) => breach_and_reason(alloc, topo, breach, reason),
    }
}

/// The text of a plan that was found, or the lines of why there is none.
fn found_answer(
    alloc: Global,
    topo: &Topology,
    found: &Found,
    told: Option<Reason>,
) -> Result<Answer, CommandError>
    requires { FitsFound (network topo.now) found.now }
    ensures text { IfOk result (λ answer. answer.text.items
        ≡ found_text (network topo.now) found.now told) }
    ensures status { IfOk result (λ answer. answer.status ≡ found_status found.now) }
    ensures only { IfErr result (λ why. why ≡ CommandError.Memory) }
{
    match found {
        Found::Plan(plan) => Ok(Answer {
            text: plan_text(alloc, topo, plan)?,
            status: Status::Done,
        }),
        Found::NoPlan(_, breach) => none_answer(alloc, topo, breach, told),
    }
}

/// Searches for a plan without what is absent: its text, or the lines of why there is none.
#[tactic(auto, using(crate::proofs::Makes::found_fits))]
pub(crate) fn finding(
    alloc: Global,
    topo: &Topology,
    absent: &Absent,
    root: Option<u32>,
    settings: Settings,
) -> Result<Answer, CommandError>
    requires absent { IsAbsentOf (network topo.now) absent.now }
    requires root { IfSome root (λ r. r < length (network topo.now).devices) }
    requires budget { IsBudget settings.budget }
    ensures makes { IsAllowed
        (IsFinding (network topo.now) absent.now root settings.budget) result }
    ensures gives { IfOk result (λ answer. IsTrue
        (is_among (Status.Done ∷ Status.PlanRefused ∷ Status.InputRefused ∷ []) answer.status)) }
    ensures only { IfErr result (λ why. why ≡ CommandError.Memory) }
{
    let found = search(alloc, topo, absent, root, settings)?;
    let told = told_with(alloc, topo, absent, &found)?;
    found_answer(alloc, topo, &found, told)
}
