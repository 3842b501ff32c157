//! `check`: the verdict of the checker on a plan.
ghost use Rattle.std.specs.Prelude.{◌≡◌, ◌≤◌, [], ◌∷◌, Err, IsTrue, IfErr, IfOk, IfSome};
ghost use Rattle.sd_io.specs.outside.Shelves.{KeepsShelf};
ghost use Rattle.sd_plan.specs.Plans.{Fits};
ghost use Rattle.sd_plan.specs.topo.Topologies.{network};
ghost use Rattle.sd_files.specs.Answering.{After};
ghost use Rattle.sd_files.specs.Inputs.{plan_in_file};
ghost use Rattle.sd_files.specs.Texts.{texts_of};
ghost use Rattle.sd_files.specs.Writes.{IsAllowed};
ghost use Rattle.sd_top.specs.Checks.{IsCheck, IsJudged, verdict_status, verdict_text};
ghost use Rattle.sd_top.specs.Gives.{GivesAmong};

use sd_checker::{Verdict, accepted_line, check as check_plan};
use sd_files::{Answer, CommandError, Status, load_plan, load_topology, refused_plan};
use sd_io::outside::Shelf;
use sd_plan::Plan;
use sd_plan::topo::Topology;
use std::alloc::Global;

/// Makes the line of the verdict on a plan.
pub fn check<S: Shelf>(
    alloc: Global,
    shelf: &mut S,
    topology: &str,
    plan: &str,
) -> Result<Answer, CommandError>
    requires topology { IsTrue (S.serves shelf.old topology.now) }
    requires plan { IsTrue (S.serves shelf.old plan.now) }
    ensures makes { IfSome (S.held shelf.old)
        (λ held. IsAllowed (IsCheck (texts_of held topology.now) (texts_of held plan.now)) result) }
    ensures gives { GivesAmong
        (Status.Done ∷ Status.PlanRefused ∷ Status.InputRefused ∷ []) result }
    ensures shelf { KeepsShelf S.Shelf (result ≡ Err CommandError.Shelf) shelf.old shelf.new }
{
    let topo = load_topology(alloc, shelf, topology)?;
    check_over(alloc, shelf, &topo, plan)
}

/// Makes the line of the verdict on the plan of a file, over a topology that is lent. `check` so
/// drops the topology in one place: each exit that drops one adds all of its fields to what is
/// proved there.
fn check_over<S: Shelf>(
    alloc: Global,
    shelf: &mut S,
    topo: &Topology,
    plan: &str,
) -> Result<Answer, CommandError>
    requires { IsTrue (S.serves shelf.old plan.now) }
    ensures makes { IfSome (S.held shelf.old)
        (λ held. IsAllowed
        (After (plan_in_file (network topo.now) 1 (texts_of held plan.now))
        (IsJudged (network topo.now))) result) }
    ensures gives { GivesAmong
        (Status.Done ∷ Status.PlanRefused ∷ Status.InputRefused ∷ []) result }
    ensures shelf { KeepsShelf S.Shelf (result ≡ Err CommandError.Shelf) shelf.old shelf.new }
{
    let plan = load_plan(alloc, shelf, plan, topo, 1)?;
    judge(alloc, topo, &plan)
}

/// Judges a plan.
fn judge(alloc: Global, topo: &Topology, plan: &Plan) -> Result<Answer, CommandError>
    requires { Fits (network topo.now) plan.now }
    ensures makes { IsAllowed (IsJudged (network topo.now) plan.now) result }
    ensures gives { GivesAmong
        (Status.Done ∷ Status.PlanRefused ∷ Status.InputRefused ∷ []) result }
    ensures only { IfErr result (λ why. why ≡ CommandError.Memory) }
{
    let verdict = check_plan(alloc, topo, plan)?;
    verdict_answer(alloc, topo, &verdict)
}

/// The line of a verdict, and its status.
fn verdict_answer(alloc: Global, topo: &Topology, verdict: &Verdict) -> Result<Answer, CommandError>
    ensures text { IfOk result
        (λ answer. answer.text.items ≡ verdict_text (network topo.now) verdict.now) }
    ensures status { IfOk result (λ answer. answer.status ≡ verdict_status verdict.now) }
    ensures only { IfErr result (λ why. why ≡ CommandError.Memory) }
{
    match verdict {
        Verdict::Accepted => Ok(Answer {
            text: accepted_line(alloc, topo)?.into_bytes(),
            status: Status::Done,
        }),
        Verdict::Refused(breach) => Ok(refused_plan(alloc, topo, 1, breach)?),
    }
}
