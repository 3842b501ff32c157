//! Which hit devices lead to an end on each way, and from which some way never ends.
ghost use Rattle.std.specs.Prelude.{◌≡◌, ◌≢◌, ℕ, ◌+◌, ◌<◌, [], ◌∷◌, ◌++◌, length, slice_index_or, IsTrue, All, IfOk, IfSome, OnOk, vec_len, if◌then◌else◌};
ghost use Rattle.sd_num.specs.Lists.{has};
ghost use Rattle.sd_checker.specs.check_loop.Graphs.{IsGraph, leads, successors_at, BothAre};
ghost use Rattle.sd_checker.specs.check_loop.Markings as markings;
ghost use Rattle.sd_checker.specs.check_loop.Markings.{IsSearch, IsMarked, NoneNewer, search_left, mark_at};
ghost use Rattle.sd_checker.specs.declared.check_loop.marking.Mark.TheVariants as mark;
ghost use Rattle.sd_checker.specs.declared.check_loop.marking.Step.TheVariants as step;

use crate::check_loop::graph::Successors;
use sd_num::NoMemory;
use std::alloc::Global;

/// What is known of the ways from a place.
#[derive(Clone, Copy, Debug, PartialEq, Eq)]
pub(crate) enum Mark {
    New,
    /// It is on the stack: what it leads to is being looked at.
    Entered,
    /// Each way from it ends.
    Ending,
    /// Some way from it never ends.
    Endless,
}

/// What is to be done about the place on top of the stack.
#[derive(Clone, Copy)]
enum Step {
    /// To enter a place that it leads to.
    Enter(usize),
    /// All places that it leads to end.
    Finish,
    /// It leads back to the stack, or to a place from which some way never ends.
    Condemn,
}

/// What is to be done about one successor.
fn step_to(marks: &[Mark], successor: Option<usize>) -> Step
    requires { IfSome successor (λ j. j < length marks.now) }
    ensures { result ≡ markings.step_to marks.now successor }
{
    let Some(j) = successor else {
        return Step::Finish;
    };
    match marks[j] {
        Mark::New => Step::Enter(j),
        Mark::Ending => Step::Finish,
        Mark::Entered | Mark::Endless => Step::Condemn,
    }
}

/// What is to be done about a place, by its first successor that does not end.
fn step_at(graph: &[Successors], marks: &[Mark], top: usize) -> Step
    requires place { top < length graph.now }
    requires graph { IsGraph graph.now }
    requires size { length marks.now ≡ length graph.now }
    ensures { result ≡ markings.step_at graph.now marks.now top }
{
    let Successors { primary, backup } = graph[top];
    match step_to(marks, primary) {
        Step::Finish => step_to(marks, backup),
        step => step,
    }
}

/// Enters a new place, to which the top of the stack leads.
fn enter(
    graph: &[Successors],
    marks: &mut Vec<Mark>,
    stack: &mut Vec<usize>,
    next: usize,
) -> Result<(), NoMemory>
    requires searched { IsSearch graph.now marks.old.items stack.old.items }
    requires place { next < length graph.now }
    requires new { mark_at marks.old.items next ≡ mark.New }
    requires led { (k : ℕ) → k + 1 ≡ length stack.old.items
        → IsTrue (leads graph.now (slice_index_or stack.old.items k 0) next) }
    ensures searched { OnOk result (IsSearch graph.now marks.new.items stack.new.items) }
    ensures newer { OnOk result (NoneNewer marks.old.items marks.new.items) }
    ensures left { OnOk result
        (search_left marks.new.items stack.new.items < search_left marks.old.items
        stack.old.items) }
    ensures entered { OnOk result (mark_at marks.new.items next ≡ mark.Entered) }
{
    let Ok(()) = stack.push(next) else {
        return Err(NoMemory);
    };
    marks[next] = Mark::Entered;
    Ok(())
}

/// Takes the top off the stack, since all that it leads to ends.
fn finish(graph: &[Successors], marks: &mut Vec<Mark>, stack: &mut Vec<usize>, top: usize)
    requires searched { IsSearch graph.now marks.old.items stack.old.items }
    requires top { (k : ℕ) → k + 1 ≡ length stack.old.items
        → slice_index_or stack.old.items k 0 ≡ top }
    requires some { 0 < length stack.old.items }
    requires ends { BothAre (λ j. mark_at marks.old.items j ≡ mark.Ending)
        (successors_at graph.now top) }
    ensures searched { IsSearch graph.now marks.new.items stack.new.items }
    ensures newer { NoneNewer marks.old.items marks.new.items }
    ensures left { search_left marks.new.items stack.new.items < search_left marks.old.items
        stack.old.items }
{
    marks[top] = Mark::Ending;
    let _ = stack.pop();
}

/// Marks places as those from which some way never ends.
fn mark_endless(marks: &mut [Mark], places: &[usize])
    requires { All (λ i. i < length marks.old) places.now }
    ensures { (i : ℕ)
        → mark_at marks.new i ≡ (if has places.now i then mark.Endless else mark_at marks.old i) }
{
    for i in places {
        marks[*i] = Mark::Endless;
    }
}

/// Takes all off the stack, since some way from its top never ends.
fn condemn(graph: &[Successors], marks: &mut Vec<Mark>, stack: &mut Vec<usize>)
    requires searched { IsSearch graph.now marks.old.items stack.old.items }
    requires some { 0 < length stack.old.items }
    requires endless { (k : ℕ) → k + 1 ≡ length stack.old.items
        → (j : ℕ) × IsTrue (leads graph.now (slice_index_or stack.old.items k 0) j)
        × (markings.step_by j (mark_at marks.old.items j) ≡ step.Condemn) }
    ensures searched { IsSearch graph.now marks.new.items stack.new.items }
    ensures newer { NoneNewer marks.old.items marks.new.items }
    ensures left { search_left marks.new.items stack.new.items < search_left marks.old.items
        stack.old.items }
{
    mark_endless(marks, stack);
    stack.clear();
}

/// One step of the search, at the top of the stack.
fn turn(
    graph: &[Successors],
    marks: &mut Vec<Mark>,
    stack: &mut Vec<usize>,
    top: usize,
) -> Result<(), NoMemory>
    requires graph { IsGraph graph.now }
    requires searched { IsSearch graph.now marks.old.items stack.old.items }
    requires top { (k : ℕ) → k + 1 ≡ length stack.old.items
        → slice_index_or stack.old.items k 0 ≡ top }
    requires some { 0 < length stack.old.items }
    ensures searched { OnOk result (IsSearch graph.now marks.new.items stack.new.items) }
    ensures newer { OnOk result (NoneNewer marks.old.items marks.new.items) }
    ensures left { OnOk result
        (search_left marks.new.items stack.new.items < search_left marks.old.items
        stack.old.items) }
{
    match step_at(graph, marks, top) {
        Step::Enter(next) => return enter(graph, marks, stack, next),
        Step::Finish => finish(graph, marks, stack, top),
        Step::Condemn => condemn(graph, marks, stack),
    }
    Ok(())
}

/// Marks all that a new place leads to.
fn mark_from(
    graph: &[Successors],
    marks: &mut Vec<Mark>,
    stack: &mut Vec<usize>,
    start: usize,
) -> Result<(), NoMemory>
    requires graph { IsGraph graph.now }
    requires searched { IsSearch graph.now marks.old.items stack.old.items }
    requires alone { stack.old.items ≡ [] }
    requires place { start < length graph.now }
    requires new { mark_at marks.old.items start ≡ mark.New }
    ensures searched { OnOk result (IsSearch graph.now marks.new.items []) }
    ensures alone { OnOk result (stack.new.items ≡ []) }
    ensures newer { OnOk result (NoneNewer marks.old.items marks.new.items) }
    ensures started { OnOk result (mark_at marks.new.items start ≢ mark.New) }
{
    enter(graph, marks, stack, start)?;
    while let Some(top) = stack.last().copied() {
        turn(graph, marks, stack, top)?;
    }
    Ok(())
}

/// The marks of all places.
pub(crate) fn marks_of(alloc: Global, graph: &[Successors]) -> Result<Vec<Mark>, NoMemory>
    requires { IsGraph graph.now }
    ensures { IfOk result (λ marks. IsMarked graph.now marks.items) }
{
    let Ok(mut marks) = vec![in alloc; Mark::New; graph.len()] else {
        return Err(NoMemory);
    };
    let mut stack = Vec::new(alloc);
    for start in 0..graph.len() {
        if marks[start] == Mark::New {
            mark_from(graph, &mut marks, &mut stack, start)?;
        }
    }
    Ok(marks)
}
