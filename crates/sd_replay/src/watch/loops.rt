//! Whether following parents comes back to a device, and the least device of which this is so.
ghost use Rattle.std.specs.Prelude.{◌≡◌, ◌↔◌, ◌⊎◌, ℕ, ◌≤◌, IsTrue, IfSome, MatchOption};
ghost use Rattle.sd_replay.specs.watch.Watch.{parent_in, IsOnLoop, HasNoLoop, IsFirstOnLoop};
ghost use Rattle.sd_replay.specs.watch.Settled.{IsSettled, NoneBefore};

use crate::watch::marks::{MARKS, first_by_marks};

/// The parent of a device, if it has one.
pub(crate) fn parent_of(parents: &[Option<u32>], d: u32) -> Option<u32>
    ensures { result ≡ parent_in parents.now d }
{
    match parents.get(d as usize) {
        Some(parent) => *parent,
        None => None,
    }
}

/// Whether following parents from `d` comes back to `d`.
///
/// It takes as many steps as there are devices up to the one that has no parent or to `d` itself;
/// where `d` leads into a loop that it is not on, as many as the list is long.
pub fn loop_at(d: u32, parents: &[Option<u32>]) -> bool
    ensures { IsTrue result ↔ IsOnLoop (parent_in parents.now) d }
{
    let mut here = d;
    'steps: for _ in 0..parents.len() {
        let Some(parent) = parent_of(parents, here) else {
            return false;
        };
        if parent == d {
            return true;
        }
        here = parent;
    }
    false
}

/// The lesser of two devices, of which the first may be missing.
pub(crate) fn lesser(first: Option<u32>, other: u32) -> u32
    ensures other { result ≤ other }
    ensures first { IfSome first (λ d. result ≤ d) }
    ensures either { result ≡ other ⊎ first ≡ Some result }
{
    match first {
        Some(d) if d < other => d,
        _ => other,
    }
}

/// The least device on the loop that `d` is on.
pub(crate) fn least_on_loop(parents: &[Option<u32>], d: u32) -> u32
    requires { IsOnLoop (parent_in parents.now) d }
    ensures on_loop { IsOnLoop (parent_in parents.now) result }
    ensures least { IsSettled (parent_in parents.now) (Some result) d }
{
    let mut least = d;
    let mut here = d;
    'round: for _ in 0..parents.len() {
        match parent_of(parents, here) {
            Some(parent) if parent != d => here = parent,
            _ => return least,
        }
        least = least.min(here);
    }
    least
}

/// The least device on a loop, of those found so far and one more, if it is on a loop.
fn with_device(parents: &[Option<u32>], first: Option<u32>, device: u32) -> Option<u32>
    requires { IfSome first (λ d. IsOnLoop (parent_in parents.now) d) }
    ensures on_loop { IfSome result (λ d. IsOnLoop (parent_in parents.now) d) }
    ensures device { IsOnLoop (parent_in parents.now) device → NoneBefore result device }
    ensures others { (e : ℕ) → NoneBefore first e → NoneBefore result e }
{
    if loop_at(device, parents) {
        Some(lesser(first, device))
    } else {
        first
    }
}

/// The least device on a loop, of lists of any length: each parent is tried.
fn first_by_trials(parents: &[Option<u32>]) -> Option<u32>
    ensures { MatchOption result (HasNoLoop (parent_in parents.now))
        (λ d. IsFirstOnLoop (parent_in parents.now) d) }
{
    let mut first = None;
    for entry in parents {
        if let Some(parent) = entry {
            first = with_device(parents, first, *parent);
        }
    }
    first
}

/// The least device on a loop; `None` exactly where there is no loop.
///
/// In a list of at most 4096 devices each is looked at at most three times; the marks that spare
/// more take 16 KiB of the stack. For a longer list there are none, and each parent is tried by
/// `loop_at`.
// Never a part of its caller, which would make the room for marks at each of its own calls.
#[inline(never)]
pub fn first_loop(parents: &[Option<u32>]) -> Option<u32>
    ensures { MatchOption result (HasNoLoop (parent_in parents.now))
        (λ d. IsFirstOnLoop (parent_in parents.now) d) }
{
    if parents.len() > MARKS {
        return first_by_trials(parents);
    }
    let mut marks = [0; MARKS];
    first_by_marks(parents, &mut marks)
}
