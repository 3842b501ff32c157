//! The cycle that is shown: from the least device on, always to the least one, until one comes
//! again.
ghost use Rattle.std.specs.Prelude.{◌≡◌, ◌≢◌, ℕ, ◌<◌, ◌≤◌, length, drop, slice_index_or, count_by, None, IsTrue, IfOk, IfSome, MatchOption, OnOk};
ghost use Rattle.sd_num.specs.Lists.{ascends};
ghost use Rattle.sd_checker.specs.check_loop.Graphs.{IsGraph};
ghost use Rattle.sd_checker.specs.check_loop.Markings.{IsMarked, mark_at};
ghost use Rattle.sd_checker.specs.check_loop.Shown as shown;
ghost use Rattle.sd_checker.specs.check_loop.Shown.{CycleIs};
ghost use Rattle.sd_checker.specs.check_loop.Trails.{IsTrail, is_open, passed_at, device_at};
ghost use Rattle.sd_checker.specs.declared.check_loop.marking.Mark.TheVariants as mark;

use crate::check_loop::graph::Successors;
use crate::check_loop::marking::Mark;
use sd_num::NoMemory;
use sd_plan::DeviceList;
use std::alloc::Global;

/// The first place from which some way never ends.
pub(crate) fn first_endless(marks: &[Mark]) -> Option<usize>
    ensures { MatchOption result ((k : ℕ) → k < length marks.now
        → mark_at marks.now k ≢ mark.Endless)
        (λ i. (i < length marks.now) × (mark_at marks.now i ≡ mark.Endless)
        × ((k : ℕ) → k < i → mark_at marks.now k ≢ mark.Endless)) }
{
    for i in 0..marks.len() {
        if marks[i] == Mark::Endless {
            return Some(i);
        }
    }
    None
}

/// A successor, if some way from it never ends.
fn endless_at(marks: &[Mark], successor: Option<usize>) -> Option<usize>
    requires { IfSome successor (λ j. j < length marks.now) }
    ensures { result ≡ shown.endless_at marks.now successor }
{
    let j = successor?;
    match marks[j] {
        Mark::Endless => Some(j),
        Mark::New | Mark::Entered | Mark::Ending => None,
    }
}

/// The lesser of two places, or the one that is there.
fn lesser(a: Option<usize>, b: Option<usize>) -> Option<usize>
    ensures { result ≡ shown.lesser a b }
{
    match (a, b) {
        (Some(a), Some(b)) => Some(a.min(b)),
        (Some(a), None) => Some(a),
        (None, b) => b,
    }
}

/// The least successor from which some way never ends.
fn next_endless(graph: &[Successors], marks: &[Mark], here: usize) -> Option<usize>
    requires place { here < length graph.now }
    requires graph { IsGraph graph.now }
    requires size { length marks.now ≡ length graph.now }
    ensures { result ≡ shown.next_endless graph.now marks.now here }
{
    let Successors { primary, backup } = graph[here];
    lesser(endless_at(marks, primary), endless_at(marks, backup))
}

/// Notes the device at a new place, and goes on to the next place.
fn pass(
    alloc: Global,
    hit: &[u32],
    graph: &[Successors],
    marks: &[Mark],
    path: &mut DeviceList,
    passed: &mut Vec<Option<usize>>,
    here: usize,
) -> Result<usize, NoMemory>
    requires ascending { IsTrue (ascends hit.now) }
    requires size { length hit.now ≡ length graph.now }
    requires graph { IsGraph graph.now }
    requires marked { IsMarked graph.now marks.now }
    requires place { here < length hit.now }
    requires sized { length passed.old.items ≡ length hit.now }
    requires endless { mark_at marks.now here ≡ mark.Endless }
    requires new { passed_at passed.old.items here ≡ None }
    ensures trail { OnOk result ((begin : ℕ)
        → IsTrail hit.now graph.now marks.now begin path.old passed.old.items here
        → IfOk result (IsTrail hit.now graph.now marks.now begin path.new passed.new.items)) }
    ensures left { OnOk result
        (count_by is_open passed.new.items < count_by is_open passed.old.items) }
{
    let Some(next) = next_endless(graph, marks, here) else {
        unreachable!();
    };
    passed[here] = Some(path.as_slice().len());
    path.push(alloc, hit[here])?;
    Ok(next)
}

/// A list from a place on.
fn copy_from(alloc: Global, path: &[u32], from: usize) -> Result<DeviceList, NoMemory>
    requires { from ≤ length path.now }
    ensures { IfOk result (λ copy. copy ≡ drop from path.now) }
{
    let mut copy = DeviceList::new(alloc);
    for d in &path[from..] {
        copy.push(alloc, *d)?;
    }
    Ok(copy)
}

/// The cycle that the ways from a place lead to.
pub(crate) fn cycle_from(
    alloc: Global,
    hit: &[u32],
    graph: &[Successors],
    marks: &[Mark],
    begin: usize,
) -> Result<DeviceList, NoMemory>
    requires ascending { IsTrue (ascends hit.now) }
    requires size { length hit.now ≡ length graph.now }
    requires graph { IsGraph graph.now }
    requires marked { IsMarked graph.now marks.now }
    requires place { begin < length hit.now }
    requires endless { mark_at marks.now begin ≡ mark.Endless }
    ensures { IfOk result (CycleIs hit.now graph.now marks.now (device_at hit.now begin)) }
{
    let mut path = DeviceList::new(alloc);
    let Ok(mut passed) = vec![in alloc; None; hit.len()] else {
        return Err(NoMemory);
    };
    let mut here = begin;
    loop {
        if let Some(from) = passed[here] {
            return copy_from(alloc, path.as_slice(), from);
        }
        here = pass(alloc, hit, graph, marks, &mut path, &mut passed, here)?;
    }
}
