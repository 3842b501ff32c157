//! `why`: the first reason why a topology has no plan.
ghost use Rattle.std.specs.Prelude.{◌≡◌, [], ◌∷◌, Err, IsTrue, IfErr, IfOk, IfSome};
ghost use Rattle.sd_io.specs.outside.Shelves.{KeepsShelf};
ghost use Rattle.sd_files.specs.Statuses.{is_among};
ghost use Rattle.sd_files.specs.Texts.{texts_of};
ghost use Rattle.sd_files.specs.Writes.{IsAllowed};
ghost use Rattle.sd_ctl_top.specs.Reasons as meaning;
ghost use Rattle.sd_ctl_top.specs.Reasons.{IsReason, IsReasoning};
ghost use Rattle.sd_plan.specs.topo.Topologies.{network};
ghost use Rattle.sd_why.specs.Text as text;

use sd_files::{Answer, CommandError, Status, load_topology};
use sd_io::outside::Shelf;
use sd_plan::topo::Topology;
use sd_why::{Reason, why, why_text};
use std::alloc::Global;

/// Makes the line of the first reason why a topology has no plan.
pub(crate) fn reason_answer<S: Shelf>(
    alloc: Global,
    shelf: &mut S,
    topology: &str,
) -> Result<Answer, CommandError>
    requires topology { IsTrue (S.serves shelf.old topology.now) }
    ensures makes { IfSome (S.held shelf.old)
        (λ held. IsAllowed (IsReasoning (texts_of held topology.now)) result) }
    ensures gives { IfOk result (λ answer. IsTrue
        (is_among (Status.Done ∷ Status.PlanRefused ∷ Status.InputRefused ∷ []) answer.status)) }
    ensures shelf { KeepsShelf S.Shelf (result ≡ Err CommandError.Shelf) shelf.old shelf.new }
{
    let topo = load_topology(alloc, shelf, topology)?;
    reason_over(alloc, &topo)
}

/// The same over a topology that is lent, and so dropped in one place.
fn reason_over(alloc: Global, topo: &Topology) -> Result<Answer, CommandError>
    ensures makes { IsAllowed (IsReason (network topo.now)) result }
    ensures gives { IfOk result (λ answer. IsTrue
        (is_among (Status.Done ∷ Status.PlanRefused ∷ Status.InputRefused ∷ []) answer.status)) }
    ensures only { IfErr result (λ stop. stop ≡ CommandError.Memory) }
{
    let found = why(alloc, topo)?;
    told(alloc, topo, found)
}

/// The line of a reason, or that none is known, and its status.
pub(crate) fn told(
    alloc: Global,
    topo: &Topology,
    found: Option<Reason>,
) -> Result<Answer, CommandError>
    ensures text { IfOk result (λ answer. answer.text.items
        ≡ text.why_text (network topo.now) found) }
    ensures status { IfOk result (λ answer. answer.status ≡ meaning.why_status found) }
    ensures only { IfErr result (λ stop. stop ≡ CommandError.Memory) }
{
    let line = why_text(alloc, topo, found)?;
    Ok(Answer {
        text: line.into_bytes(),
        status: why_status(found),
    })
}

/// The status of a reason: that of a plan which is refused; where none is known, that all is done.
fn why_status(found: Option<Reason>) -> Status
    ensures { result ≡ meaning.why_status found }
{
    match found {
        Some(_) => Status::PlanRefused,
        None => Status::Done,
    }
}
