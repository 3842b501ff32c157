//! A command that prints a plan by domains.
ghost use Rattle.std.specs.Prelude.{◌≡◌, ◌≢◌, [], ◌∷◌, true, Err, IsTrue, IfOk, IfSome};
ghost use Rattle.sd_drill_text.specs.Commands.{ByDomains, IsPrinted};
ghost use Rattle.sd_drill_text.specs.Steps.{PlanInSteps, PrintedInSteps};
ghost use Rattle.sd_files.specs.Answering.{InWrites};
ghost use Rattle.sd_checker.specs.Text as text;
ghost use Rattle.sd_files.specs.Statuses.{is_among};
ghost use Rattle.sd_files.specs.Texts.{texts_of};
ghost use Rattle.sd_files.specs.Writes.{Adds};
ghost use Rattle.sd_files.specs.planfiles.PlanFiles.{AfterJudged, AfterPlan};
ghost use Rattle.sd_files.specs.work.Ending.{LeavesAt};
ghost use Rattle.sd_drill.specs.Budgets.{IsBudget};
ghost use Rattle.sd_io.specs.outside.Causes.{RisesFor};
ghost use Rattle.sd_io.specs.outside.Pieces.{piece_of};
ghost use Rattle.sd_io.specs.outside.Shelves.{KeepsShelf};
ghost use Rattle.sd_plan.specs.Plans.{Fits};
ghost use Rattle.sd_plan.specs.topo.Topologies.{network};

use crate::domain_lines::DomainLines;
use crate::writing::write_plan;
use sd_checker::{Breach, Verdict, check};
use sd_drill::Budget;
use sd_files::{IoError, Status, load_plan, load_topology, refused_plan, send, write_answer};
use sd_io::outside::{Shelf, Sink};
use sd_num::NoMemory;
use sd_plan::Plan;
use sd_plan::topo::Topology;
use std::alloc::Global;

/// Reads a topology and a plan, and where the checker accepts the plan prints it by domains, with a
/// budget within the limits; else the line of its breach is written.
pub fn print_texts<D: DomainLines, S: Shelf, O: Sink>(
    alloc: Global,
    shelf: &mut S,
    topology: &str,
    plan: &str,
    budget: Budget,
    out: &mut O,
) -> Result<Status, IoError>
    requires topology { IsTrue (S.serves shelf.old topology.now) }
    requires plan { IsTrue (S.serves shelf.old plan.now) }
    requires budget { IsBudget budget }
    ensures outcome { IfSome (S.held shelf.old)
        (λ held. LeavesAt true
        (ByDomains D.lines D.says (texts_of held topology.now) (texts_of held plan.now) budget)
        (O.written out.old) (O.written out.new) result) }
    ensures gives { IfOk result
        (λ status. IsTrue
        (is_among (Status.Done ∷ Status.PlanRefused ∷ Status.InputRefused ∷ []) status)) }
    ensures shelf { KeepsShelf S.Shelf (result ≡ Err IoError.Shelf) shelf.old shelf.new }
    ensures sink { RisesFor (result ≡ Err IoError.Sink) (O.faults out.old) (O.faults out.new) }
{
    match load_topology(alloc, shelf, topology) {
        Ok(topo) => print_over::<D, S, O>(alloc, shelf, &topo, plan, budget, out),
        Err(ended) => write_answer(alloc, &Err(ended), out),
    }
}

/// The same over a topology that is lent, and so dropped in one place, as in `check`.
fn print_over<D: DomainLines, S: Shelf, O: Sink>(
    alloc: Global,
    shelf: &mut S,
    topo: &Topology,
    plan: &str,
    budget: Budget,
    out: &mut O,
) -> Result<Status, IoError>
    requires plan { IsTrue (S.serves shelf.old plan.now) }
    requires budget { IsBudget budget }
    ensures outcome { IfSome (S.held shelf.old)
        (λ held. LeavesAt true
        (InWrites (PlanInSteps D.lines (network topo.now) budget (texts_of held plan.now))
        (AfterPlan (network topo.now) 1 (texts_of held plan.now)
        (IsPrinted D.says (network topo.now) budget))) (O.written out.old) (O.written out.new)
        result) }
    ensures gives { IfOk result
        (λ status. IsTrue
        (is_among (Status.Done ∷ Status.PlanRefused ∷ Status.InputRefused ∷ []) status)) }
    ensures shelf { KeepsShelf S.Shelf (result ≡ Err IoError.Shelf) shelf.old shelf.new }
    ensures sink { RisesFor (result ≡ Err IoError.Sink) (O.faults out.old) (O.faults out.new) }
{
    match load_plan(alloc, shelf, plan, topo, 1) {
        Ok(plan) => print_plan::<D, O>(alloc, topo, &plan, budget, out),
        Err(ended) => write_answer(alloc, &Err(ended), out),
    }
}

/// Judges a plan, and prints it where it is accepted.
fn print_plan<D: DomainLines, O: Sink>(
    alloc: Global,
    topo: &Topology,
    plan: &Plan,
    budget: Budget,
    out: &mut O,
) -> Result<Status, IoError>
    requires fits { Fits (network topo.now) plan.now }
    requires budget { IsBudget budget }
    ensures outcome { LeavesAt true
        (InWrites (PrintedInSteps D.lines (network topo.now) budget plan.now)
        (AfterJudged (network topo.now) 1 plan.now
        (IsPrinted D.says (network topo.now) budget plan.now)))
        (O.written out.old) (O.written out.new) result }
    ensures gives { IfOk result
        (λ status. IsTrue
        (is_among (Status.Done ∷ Status.PlanRefused ∷ Status.InputRefused ∷ []) status)) }
    ensures never_shelf { result ≢ Err IoError.Shelf }
    ensures sink { RisesFor (result ≡ Err IoError.Sink) (O.faults out.old) (O.faults out.new) }
{
    match check(alloc, topo, plan) {
        Ok(Verdict::Accepted) => write_plan::<D, O>(alloc, topo, plan, budget, out),
        Ok(Verdict::Refused(breach)) => refuse(alloc, topo, &breach, out),
        Err(NoMemory) => Err(IoError::Memory),
    }
}

/// Writes the line of the breach of a plan.
fn refuse<O: Sink>(
    alloc: Global,
    topo: &Topology,
    breach: &Breach,
    out: &mut O,
) -> Result<Status, IoError>
    ensures writes { Adds (piece_of (text.refused_line (network topo.now) 1 breach.now))
        (O.written out.old) (O.written out.new) result }
    ensures status { IfOk result (λ status. status ≡ Status.PlanRefused) }
    ensures never_shelf { result ≢ Err IoError.Shelf }
    ensures sink { RisesFor (result ≡ Err IoError.Sink) (O.faults out.old) (O.faults out.new) }
{
    let answer = refused_plan(alloc, topo, 1, breach)?;
    send(out, answer.text.as_slice())?;
    Ok(answer.status)
}
