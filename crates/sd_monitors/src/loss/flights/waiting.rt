//! The flights that wait for their receipt, of which the next overdue one is found at once.
ghost use Rattle.std.specs.Prelude.{◌≡◌, ◌≤◌, ◌<◌, ◌+◌, ℕ, None, Some, is_some, OnOk, IfNone, IfSome, nat_eq, false, if◌then◌else◌};
ghost use Rattle.sd_num.specs.Lists.{map_or, same_number};
ghost use Rattle.sd_monitors.specs.loss.flights.OrderlyView.{orderly_at};
ghost use Rattle.sd_monitors.specs.loss.flights.UnorderedView.{unordered_at};
ghost use Rattle.sd_monitors.specs.loss.flights.WaitingKept.{AreApart, AreApart-prop};

use crate::loss::flights::WaitingFlight;
use crate::loss::flights::orderly::Orderly;
use crate::loss::flights::unordered::Unordered;
use sd_num::NoMemory;
use std::alloc::Global;

/// Flights by number. Most are sent with ascending numbers and dues, and wait in that order; the
/// others wait apart from them.
#[derive(Drop)]
pub struct Waiting {
    orderly: Orderly,
    others: Unordered,
    ghost apart: { AreApart (orderly_at orderly) (unordered_at others) } by { AreApart-prop (orderly_at orderly) (unordered_at others) },
}

impl Waiting {
    ghost use Rattle.sd_monitors.specs.loss.flights.WaitingView.{waiting_at, count_of, room_for};

    /// No flights.
    pub fn new(alloc: Global) -> Waiting
        ensures flights { (n : ℕ) → waiting_at result n ≡ None }
        ensures count { count_of result ≡ 0 }
    {
        Waiting {
            orderly: Orderly::new(alloc),
            others: Unordered::new(alloc),
        }
    }

    /// Makes room for this many more flights.
    pub fn ready(&mut self, count: usize) -> Result<(), NoMemory>
        ensures room { OnOk result (count ≤ room_for self.new) }
        ensures grows { room_for self.old ≤ room_for self.new }
        ensures flights { (n : ℕ) → waiting_at self.new n ≡ waiting_at self.old n }
        ensures count { count_of self.new ≤ count_of self.old }
    {
        self.orderly.ready(count)?;
        self.others.ready(count)
    }

    /// How many flights are kept: no fewer than wait.
    pub fn len(&self) -> usize
        ensures { result ≡ count_of self.now }
    {
        self.orderly.len() + self.others.len()
    }

    /// Adds a flight, in place of any of its number.
    pub fn add(&mut self, flight: WaitingFlight)
        requires { 1 ≤ room_for self.old }
        ensures flights { (n : ℕ)
            → waiting_at self.new n
            ≡ (if nat_eq flight.number n then Some flight else waiting_at self.old n) }
        ensures count { count_of self.new ≤ count_of self.old + 1 }
        ensures room { room_for self.old ≤ room_for self.new + 1 }
    {
        if self.orderly.is_followed_by(&flight) {
            self.others.receive(flight.number);
            self.orderly.add(flight);
        } else {
            let _replaced = self.orderly.receive(flight.number);
            self.others.add(flight);
        }
    }

    /// Takes out the flight that was received, if there is one and it waits.
    #[inline(always)]
    pub fn receive(&mut self, taken: Option<u64>)
        ensures flights { (n : ℕ)
            → waiting_at self.new n
            ≡ (if same_number taken n then None else waiting_at self.old n) }
        ensures count { count_of self.new ≤ count_of self.old }
        ensures room { room_for self.old ≤ room_for self.new }
    {
        if let Some(number) = taken {
            if !self.orderly.receive(number) {
                self.others.receive(number);
            }
        }
    }

    /// Whether some flight may be overdue at the reference: if not, none is. Mostly it is not, and
    /// one look at each of the two first dues tells.
    #[inline(always)]
    pub fn may_be_overdue(&self, reference: u64) -> bool
        ensures { result ≡ false → (n : ℕ) (f : WaitingFlight) → waiting_at self.now n ≡ Some f
            → reference ≤ f.due }
    {
        self.orderly.may_be_overdue(reference) || self.others.may_be_overdue(reference)
    }

    /// Takes out a flight whose due lies before the reference, as long as there is one.
    pub fn next_overdue(&mut self, reference: u64) -> Option<WaitingFlight>
        ensures flight { IfSome result
            (λ f. (waiting_at self.old f.number ≡ Some f) × (f.due < reference)) }
        ensures flights { (n : ℕ)
            → waiting_at self.new n
            ≡ (if map_or result false (λ f. nat_eq f.number n) then None else waiting_at self.old
            n) }
        ensures none { IfNone result ((n : ℕ) (f : WaitingFlight) → waiting_at self.new n ≡ Some f
            → reference ≤ f.due) }
        ensures count { count_of self.new + (if is_some result then 1 else 0) ≤ count_of self.old }
        ensures room { room_for self.old ≤ room_for self.new }
    {
        if let Some(flight) = self.orderly.next_overdue(reference) {
            return Some(flight);
        }
        self.others.next_overdue(reference)
    }
}
