//! A set of small numbers that takes its memory when it is made.
ghost use Rattle.std.specs.Prelude.{◌≡◌, ℕ, ◌<◌, false, not, ◌&&◌, [], nat_eq, length, slice_index_or, All, IfOk};
ghost use Rattle.std.specs.List.{IsDistinct};
ghost use Rattle.sd_num.specs.Lists.{has};
ghost use Rattle.sd_plan.specs.domain.NumberSets.{with_number};

use sd_num::NoMemory;
use std::alloc::Global;
use std::marker::Model;

/// A set of numbers below a bound, in the order in which they came. Only `new` takes memory.
#[derive(Drop)]
pub struct NumberSet {
    /// Whether each number is in the set.
    marks: Vec<bool>,
    /// The numbers in the set, so that they are listed and cleared with no look at the others.
    numbers: Vec<u32>,
}

impl Model for NumberSet {
    ghost use Rattle.sd_plan.specs.domain.NumberSets.{Numbers};

    ghost Value = { Numbers };

    ghost use Rattle.sd_plan.specs.domain.NumberSetView.{numbers_seen, IsNumberSet};

    ghost view = { numbers_seen };

    ghost invariant = { IsNumberSet };
}

/// Takes the marks of some numbers away.
fn unmark(marks: &mut [bool], numbers: &[u32])
    requires { All (λ n. n < length marks.old) numbers.now }
    ensures { (k : ℕ) → slice_index_or marks.new k false
        ≡ (slice_index_or marks.old k false && not (has numbers.now k)) }
{
    for number in numbers {
        marks[*number as usize] = false;
    }
}

impl NumberSet {
    /// The empty set.
    pub fn new(alloc: Global, bound: u32) -> Result<NumberSet, NoMemory>
        ensures { IfOk result (λ s. s ≡ record { numbers = []; bound = bound }) }
    {
        let bound = bound as usize;
        let Ok(marks) = vec![in alloc; false; bound] else {
            return Err(NoMemory);
        };
        let Ok(numbers) = Vec::with_capacity(alloc, bound) else {
            return Err(NoMemory);
        };
        Ok(NumberSet { marks, numbers })
    }

    /// Adds a number, which may be there already, and whether it is new.
    pub fn insert(&mut self, number: u32) -> bool
        requires { number < self.old.bound }
        ensures added { self.new
            ≡ record self.old { numbers = with_number self.old.numbers number } }
        ensures new { result ≡ not (has self.old.numbers number) }
        ensures distinct { IsDistinct nat_eq self.new.numbers }
    {
        if self.marks[number as usize] {
            return false;
        }
        self.marks[number as usize] = true;
        self.numbers.push_reserved(number);
        true
    }

    /// Takes all numbers out, in the time that these take.
    pub fn clear(&mut self)
        ensures { self.new ≡ record self.old { numbers = [] } }
    {
        unmark(&mut self.marks, &self.numbers);
        self.numbers.clear();
    }

    /// Whether a number is in the set. None beyond the bound is.
    pub fn contains(&self, number: u32) -> bool
        ensures { result ≡ has self.now.numbers number }
    {
        self.marks.get(number as usize).copied().unwrap_or(false)
    }

    /// The numbers in the set, each once, in the order in which they came.
    pub fn as_slice(&self) -> &[u32]
        ensures all { result.now ≡ self.now.numbers }
        ensures distinct { IsDistinct nat_eq result.now }
    {
        self.numbers.as_slice()
    }
}
