//! Numbers by place, and a queue of those that were written in ascending order, so that the least is
//! found at its front.
ghost use Rattle.std.specs.Prelude.{◌≡◌, ℕ, ◌<◌, ◌≤◌, ◌^◌, false, length, map, replicate, nat_le, slice_index, slice_set, IsTrue, IfOk};
ghost use Rattle.std.specs.List.{list_all};
ghost use Rattle.sd_monitors.specs.clocks.Queues.{ascend, are_at_most, reach, mark_at, number_at, is_queued_at};

use sd_num::NoMemory;
use std::alloc::Global;
use std::collections::VecDeque;
use std::marker::Model;

/// Stands for no number: none is greater.
const GREATEST: u64 = u64::MAX;

/// How many entries there is room for, for each place.
const ROOM: usize = 4;

/// A number that was written at a place, and may stand there no more.
#[derive(Clone, Copy)]
pub struct Entry {
    place: u32,
    number: u64,
}

/// The number at a place, and whether it is in the queue.
#[derive(Clone, Copy)]
pub struct Mark {
    number: u64,
    queued: bool,
}

/// Numbers by place. To write one takes constant time. It goes to the back of the queue where it is
/// no less than all that went there and there is room, and else only lowers a bound for those that
/// are out of the queue. A question looks at the front, and drops each entry once that no longer
/// stands at its place. It looks at all numbers only where the bound for those that are out does
/// not reach its own.
#[derive(Drop)]
pub struct Queue {
    /// By place.
    marks: Vec<Mark>,
    entries: VecDeque<Entry>,
    /// No less than any number in the queue.
    latest: u64,
    /// No greater than any number that is not in the queue.
    least: u64,
}

impl Model for Queue {
    ghost use Rattle.std.specs.Prelude.{ℕ, List};

    ghost Value = { List ℕ };

    ghost use Rattle.sd_monitors.specs.clocks.QueueView.{numbers_kept, IsQueue};

    ghost view = { numbers_kept };

    ghost invariant = { IsQueue };
}

/// Whether the number of an entry stands at its place still.
fn is_live(marks: &[Mark], entry: Entry) -> bool
    ensures live { IsTrue result → entry.place < length marks.now }
    ensures stands { IsTrue result → number_at marks.now entry.place ≡ entry.number }
    ensures stale { result ≡ false → entry.place < length marks.now
        → number_at marks.now entry.place ≡ entry.number → ⊥ }
{
    match marks.get(entry.place as usize) {
        Some(mark) => mark.number == entry.number,
        None => false,
    }
}

/// Drops entries from the front that are less than the bound and stand at their places no more, and
/// tells whether one that does is less.
fn has_live_below(entries: &mut VecDeque<Entry>, marks: &[Mark], bound: u64) -> bool
    requires { IsTrue (ascend entries.old.items) }
    ensures order { IsTrue (ascend entries.new.items) }
    ensures below { IsTrue result → list_all (nat_le bound) (map (λ m. m.number) marks.now)
        ≡ false }
    ensures reached { result ≡ false → IsTrue (reach bound entries.new.items) }
    ensures kept { (k : ℕ) → k < length marks.now
        → IsTrue (is_queued_at marks.now k entries.old.items)
        → IsTrue (is_queued_at marks.now k entries.new.items) }
    ensures most { (n : ℕ) → IsTrue (are_at_most n entries.old.items)
        → IsTrue (are_at_most n entries.new.items) }
{
    'front: while let Some(first) = entries.front() {
        if first.number >= bound {
            return false;
        }
        if is_live(marks, *first) {
            return true;
        }
        let _stale = entries.pop_front();
    }
    false
}

/// The least number that is not in the queue.
fn least_of(marks: &[Mark]) -> u64
    ensures low { (k : ℕ) → k < length marks.now → (mark_at marks.now k).queued ≡ false
        → result ≤ number_at marks.now k }
    ensures reached { (bound : ℕ) → bound < 2 ^ 64
        → IsTrue (list_all (nat_le bound) (map (λ m. m.number) marks.now)) → bound ≤ result }
{
    let mut least = GREATEST;
    for mark in marks {
        if !mark.queued {
            least = least.min(mark.number);
        }
    }
    least
}

impl Queue {
    /// The same number at each place.
    pub fn new(alloc: Global, places: u32, number: u64) -> Result<Queue, NoMemory>
        ensures { IfOk result (λ q. q ≡ replicate places number) }
    {
        let places = places as usize;
        let mark = Mark {
            number,
            queued: false,
        };
        let Ok(marks) = vec![in alloc; mark; places] else {
            return Err(NoMemory);
        };
        match VecDeque::with_capacity(alloc, ROOM * places) {
            Ok(entries) => Ok(Queue {
                marks,
                entries,
                latest: 0,
                least: number,
            }),
            Err(_) => Err(NoMemory),
        }
    }

    /// The number at a place.
    pub fn at(&self, place: usize) -> u64
        requires { place < length self.now }
        ensures { result ≡ slice_index self.now place }
    {
        self.marks[place].number
    }

    /// Writes the number at a place.
    #[inline(always)]
    pub fn set(&mut self, place: usize, number: u64)
        requires { place < length self.old }
        ensures { self.new ≡ slice_set self.old place number }
    {
        if self.marks[place].number == number {
            return;
        }
        if number >= self.latest && self.entries.len() < self.entries.capacity() {
            self.latest = number;
            self.marks[place] = Mark {
                number,
                queued: true,
            };
            self.entries.push_back_reserved(Entry {
                place: place as u32,
                number,
            });
        } else {
            self.marks[place] = Mark {
                number,
                queued: false,
            };
            self.least = self.least.min(number);
        }
    }

    /// Whether no number is less than the bound.
    pub fn has_none_below(&mut self, bound: u64) -> bool
        ensures answer { result ≡ list_all (nat_le bound) self.old }
        ensures same { self.new ≡ self.old }
    {
        if has_live_below(&mut self.entries, &self.marks, bound) {
            return false;
        }
        // Nearly always no number is out of the queue.
        if self.least < bound {
            self.least = least_of(&self.marks);
        }
        self.least >= bound
    }
}
