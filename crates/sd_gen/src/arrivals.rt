//! Messages that wait for their receipt, of which the next one is found at once.
ghost use Rattle.std.specs.Prelude.{◌≡◌, ◌<◌, ◌≤◌, ℕ, List, [], ◌∷◌, ◌++◌, OnOk, IsSome, IfSome};
ghost use Rattle.std.specs.BinaryHeap.{heap_items, heap_len, IsHeap, IsHeap-prop};
ghost use Rattle.sd_gen.specs.declared.arrivals.Arrival.{Arrival};
ghost use Rattle.sd_gen.specs.arrivals.Waiting.{soonest, next_by};
ghost use Rattle.sd_gen.specs.arrivals.Left.{left_by};
ghost use Rattle.sd_gen.specs.arrivals.Order.{by_receipt};

use sd_num::NoMemory;
use std::alloc::Global;
use std::cmp::Reverse;
use std::collections::BinaryHeap;

/// When a message comes. The order is that of receipt: by moment, then by number.
#[derive(Clone, Copy, Debug, PartialEq, Eq, PartialOrd, Ord)]
pub struct Arrival {
    /// The reference time of its receipt, in ps.
    pub moment: u64,
    /// The number of the message, from 1.
    pub number: u64,
    pub receiver: u32,
}

/// Messages that wait. One is added or taken in logarithmic time.
#[derive(Drop)]
pub struct Arrivals {
    heap: BinaryHeap<Reverse<Arrival>>,
    ghost ordered: { IsHeap by_receipt
        (heap_items heap) } by { IsHeap-prop by_receipt (heap_items heap) },
}

impl Arrivals {
    ghost use Rattle.sd_gen.specs.arrivals.Standing.{StandsFor};

    /// None wait.
    pub fn new(alloc: Global) -> Arrivals
        ensures { (top : ℕ) → StandsFor result top [] }
    {
        Arrivals {
            heap: BinaryHeap::new(alloc),
        }
    }

    /// One more waits, of a greater number than those before it.
    pub fn add(&mut self, arrival: Arrival) -> Result<(), NoMemory>
        ensures { OnOk result ((top : ℕ) (waiting : List Arrival) → top < arrival.number
            → StandsFor self.old top waiting
            → StandsFor self.new arrival.number (waiting ++ arrival ∷ [])) }
    {
        match self.heap.push(Reverse(arrival)) {
            Ok(()) => Ok(()),
            Err(_) => Err(NoMemory),
        }
    }

    /// Takes the one that comes next, if it comes by the moment.
    pub fn take_by(&mut self, moment: u64) -> Option<Arrival>
        ensures by { IfSome result (λ arrival. arrival.moment ≤ moment) }
        ensures next { (top : ℕ) (waiting : List Arrival) → StandsFor self.old top waiting
            → result ≡ next_by moment waiting }
        ensures stands { (top : ℕ) (waiting : List Arrival) → StandsFor self.old top waiting
            → StandsFor self.new top (left_by result waiting) }
    {
        let Some(first) = self.first() else {
            return None;
        };
        if first.moment > moment {
            return None;
        }
        self.take_first();
        Some(first)
    }

    /// The one that comes first.
    fn first(&self) -> Option<Arrival>
        ensures some { IsSome result → 0 < heap_len self.now.heap }
        ensures first { (top : ℕ) (waiting : List Arrival) → StandsFor self.now top waiting
            → result ≡ soonest waiting }
    {
        match self.heap.peek() {
            Some(Reverse(first)) => Some(*first),
            None => None,
        }
    }

    /// Takes the one that comes first.
    fn take_first(&mut self)
        requires { 0 < heap_len self.old.heap }
        ensures { (top : ℕ) (waiting : List Arrival) → StandsFor self.old top waiting
            → StandsFor self.new top (left_by (soonest waiting) waiting) }
    {
        let Some(_) = self.heap.pop() else {
            unreachable!();
        };
    }
}
