//! The least device on a loop, found by walks that mark what they pass, so that none is passed
//! twice.
ghost use Rattle.std.specs.Prelude.{◌≡◌, ◌≢◌, ℕ, ◌+◌, ◌-◌, IsTrue, ◌<◌, ◌≤◌, ◌^◌, length, IfSome, MatchOption, Option};
ghost use Rattle.std.specs.Option.{ForSome};
ghost use Rattle.sd_replay.specs.watch.Watch.{parent_in, IsOnLoop, HasNoLoop, IsFirstOnLoop};
ghost use Rattle.sd_replay.specs.watch.Settled as settled;
ghost use Rattle.sd_replay.specs.watch.Settled.{mark_at, IsSettled, AreSettled, AreAtMost};

use crate::watch::loops::{least_on_loop, lesser, parent_of};

/// For how many devices there are marks: the most that a network has.
pub(crate) const MARKS: usize = 4096;

/// The mark of a device that no walk has passed.
const NEW: u32 = 0;

/// Whether the device has room for a mark, and has this one.
fn has_mark(marks: &[u32], d: u32, mark: u32) -> bool
    ensures { result ≡ settled.has_mark marks.now d mark }
{
    match marks.get(d as usize) {
        Some(found) => *found == mark,
        None => false,
    }
}

/// Goes along parents from a device that is new and marks each device with the number of the walk,
/// up to the end of the way or to a device that has a mark. Where that is a mark of this very walk,
/// the device is on a loop, and is answered.
fn walk_from(parents: &[Option<u32>], marks: &mut [u32], start: u32) -> Option<u32>
    requires room { length parents.now ≤ length marks.old }
    requires number { start < 2 ^ 32 - 1 }
    requires new { IsTrue (settled.has_mark marks.old start 0) }
    requires older { AreAtMost start marks.old }
    ensures older { AreAtMost (start + 1) marks.new }
    ensures kept { (d : ℕ) → mark_at marks.old d ≢ 0 → mark_at marks.new d ≢ 0 }
    ensures started { mark_at marks.new start ≢ 0 }
    ensures on_loop { IfSome result (λ d. IsOnLoop (parent_in parents.now) d) }
    ensures settled { (first : Option ℕ) → AreSettled (parent_in parents.now) first marks.old
        → ForSome result (λ d. IsSettled (parent_in parents.now) first d)
        → AreSettled (parent_in parents.now) first marks.new }
{
    let walk = start + 1;
    let mut here = start;
    while has_mark(marks, here, NEW) {
        marks[here as usize] = walk;
        let Some(parent) = parent_of(parents, here) else {
            return None;
        };
        here = parent;
    }
    if has_mark(marks, here, walk) {
        Some(here)
    } else {
        None
    }
}

/// The least device on a loop to which marked devices lead, once the device at which a walk begins
/// is marked too.
fn settle(parents: &[Option<u32>], marks: &mut [u32], first: Option<u32>, start: u32) -> Option<u32>
    requires room { length parents.now ≤ length marks.old }
    requires number { start < 2 ^ 32 - 1 }
    requires place { start < length parents.now }
    requires older { AreAtMost start marks.old }
    requires on_loop { IfSome first (λ d. IsOnLoop (parent_in parents.now) d) }
    requires settled { AreSettled (parent_in parents.now) first marks.old }
    ensures older { AreAtMost (start + 1) marks.new }
    ensures kept { (d : ℕ) → mark_at marks.old d ≢ 0 → mark_at marks.new d ≢ 0 }
    ensures started { mark_at marks.new start ≢ 0 }
    ensures on_loop { IfSome result (λ d. IsOnLoop (parent_in parents.now) d) }
    ensures settled { AreSettled (parent_in parents.now) result marks.new }
{
    if !has_mark(marks, start, NEW) {
        return first;
    }
    match walk_from(parents, marks, start) {
        Some(met) => Some(lesser(first, least_on_loop(parents, met))),
        None => first,
    }
}

/// The least device on a loop, of a list for which there are marks.
pub(crate) fn first_by_marks(parents: &[Option<u32>], marks: &mut [u32]) -> Option<u32>
    requires room { length parents.now ≤ length marks.old }
    requires number { length parents.now < 2 ^ 32 }
    requires new { AreAtMost 0 marks.old }
    ensures { MatchOption result (HasNoLoop (parent_in parents.now))
        (λ d. IsFirstOnLoop (parent_in parents.now) d) }
{
    let mut first = None;
    for start in 0..parents.len() {
        first = settle(parents, marks, first, start as u32);
    }
    first
}
