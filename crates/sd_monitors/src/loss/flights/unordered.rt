//! Flights that wait for their receipt in no order, of which the next overdue one is found at once.
ghost use Rattle.std.specs.Prelude.{◌≡◌, ◌≤◌, ◌<◌, ◌+◌, ◌-◌, ◌*◌, ◌^◌, ℕ, ◌∷◌, max, ◌&&◌, All, None, Some, is_some, OnOk, IfNone, IfSome, nat_eq, false, true, if◌then◌else◌};
ghost use Rattle.std.specs.HashMap.{spare, hash_map_len};
ghost use Rattle.std.specs.BinaryHeap.{heap_items, heap_len, heap_capacity, IsHeap, IsHeap-prop};
ghost use Rattle.std.specs.List.Sorted.{IsPermutation};
ghost use Rattle.sd_num.specs.Lists.{map_or};
ghost use Rattle.sd_monitors.specs.loss.flights.UnorderedKept.{flight_in, entry, by_due, is_waiting, AreListed, AreListed-prop};

use crate::loss::flights::WaitingFlight;
use sd_num::NoMemory;
use std::alloc::Global;
use std::cmp::Reverse;
use std::collections::{BinaryHeap, HashMap};

/// Flights by number, with their dues in a heap. A flight leaves by its number alone, and its due
/// stays in the heap until it is the least, or until there is no more room: so each flight costs one
/// push and one pop.
#[derive(Drop)]
pub(crate) struct Unordered {
    flights: HashMap<u64, WaitingFlight>,
    /// The due and the number of each flight, and of some that have left.
    dues: BinaryHeap<Reverse<(u64, u64)>>,
    ghost listed: { AreListed (flight_in flights) (heap_items dues) } by { AreListed-prop (flight_in flights) (heap_items dues) },
    ghost heap: { IsHeap by_due (heap_items dues) } by { IsHeap-prop by_due (heap_items dues) },
}

impl Unordered {
    ghost use Rattle.sd_monitors.specs.loss.flights.UnorderedView.{unordered_at, unordered_count, unordered_room, due_places, due_count, AllDue};

    /// No flights.
    pub fn new(alloc: Global) -> Unordered
        ensures flights { (n : ℕ) → unordered_at result n ≡ None }
        ensures count { unordered_count result ≡ 0 }
    {
        Unordered {
            flights: HashMap::new(alloc),
            dues: BinaryHeap::new(alloc),
        }
    }

    /// Makes room for this many more flights. Where it has too little for their dues, it keeps only
    /// those of flights that wait.
    pub fn ready(&mut self, count: usize) -> Result<(), NoMemory>
        ensures room { OnOk result (count ≤ unordered_room self.new) }
        ensures grows { unordered_room self.old ≤ unordered_room self.new }
        ensures flights { (n : ℕ) → unordered_at self.new n ≡ unordered_at self.old n }
        ensures count { unordered_count self.new ≡ unordered_count self.old }
        ensures places { due_places self.new
            ≤ max (due_places self.old) (2 * due_count self.new + count) }
        ensures kept { due_places self.old - due_count self.old < count → OnOk result (AllDue self.new) }
    {
        if self.flights.reserve(count).is_err() {
            return Err(NoMemory);
        }
        if count <= self.dues.capacity().saturating_sub(self.dues.len()) {
            return Ok(());
        }
        keep_waiting(&mut self.dues, &self.flights);
        // for as many again as wait, so that they are gone over only now and then
        let more = count.saturating_add(self.dues.len());
        match self.dues.reserve_exact(more) {
            Ok(()) => Ok(()),
            Err(_) => Err(NoMemory),
        }
    }

    /// How many flights wait.
    pub fn len(&self) -> usize
        ensures count { result ≡ unordered_count self.now }
        ensures small { result < 2 ^ 63 }
    {
        self.flights.len()
    }

    /// Adds a flight, in place of any of its number.
    pub fn add(&mut self, flight: WaitingFlight)
        requires { 1 ≤ unordered_room self.old }
        ensures flights { (n : ℕ)
            → unordered_at self.new n
            ≡ (if nat_eq flight.number n then Some flight else unordered_at self.old n) }
        ensures count { unordered_count self.new ≤ unordered_count self.old + 1 }
        ensures room { unordered_room self.old ≤ unordered_room self.new + 1 }
    {
        keep(&mut self.flights, flight);
        list(&mut self.dues, flight.due, flight.number);
    }

    /// Takes out the flight of a number, if there is one.
    pub fn receive(&mut self, number: u64)
        ensures flights { (n : ℕ)
            → unordered_at self.new n
            ≡ (if nat_eq number n then None else unordered_at self.old n) }
        ensures count { unordered_count self.new ≤ unordered_count self.old }
        ensures room { unordered_room self.old ≤ unordered_room self.new }
    {
        // Mostly there is none at all, and then nothing is hashed.
        if self.flights.is_empty() {
            return;
        }
        let _received = self.flights.remove(&number);
    }

    /// Whether the least due lies before the reference: if not, no flight is overdue.
    #[inline(always)]
    pub fn may_be_overdue(&self, reference: u64) -> bool
        ensures { result ≡ false → (n : ℕ) (f : WaitingFlight) → unordered_at self.now n ≡ Some f
            → reference ≤ f.due }
    {
        begin_before(&self.dues, reference)
    }

    /// Takes out a flight whose due lies before the reference, as long as there is one.
    pub fn next_overdue(&mut self, reference: u64) -> Option<WaitingFlight>
        ensures flight { IfSome result
            (λ f. (unordered_at self.old f.number ≡ Some f) × (f.due < reference)) }
        ensures flights { (n : ℕ)
            → unordered_at self.new n
            ≡ (if map_or result false (λ f. nat_eq f.number n) then None else unordered_at self.old
            n) }
        ensures none { IfNone result ((n : ℕ) (f : WaitingFlight) → unordered_at self.new n ≡ Some f
            → reference ≤ f.due) }
        ensures count { unordered_count self.new + (if is_some result then 1 else 0)
            ≡ unordered_count self.old }
        ensures room { unordered_room self.old ≤ unordered_room self.new }
    {
        'entries: while let Some(number) = pop_before(&mut self.dues, reference) {
            if let Some(flight) = take_overdue(&mut self.flights, number, reference) {
                return Some(flight);
            }
        }
        None
    }
}

/// Keeps a flight under its number.
fn keep(flights: &mut HashMap<u64, WaitingFlight>, flight: WaitingFlight)
    requires { 1 ≤ spare flights.old }
    ensures flights { (n : ℕ)
        → flight_in flights.new n
        ≡ (if nat_eq flight.number n then Some flight else flight_in flights.old n) }
    ensures count { hash_map_len flights.new ≤ hash_map_len flights.old + 1 }
    ensures room { spare flights.old ≤ spare flights.new + 1 }
{
    match flights.insert(flight.number, flight) {
        Ok(_) => {}
        Err(_) => unreachable!(),
    }
}

/// Adds an entry to the heap.
fn list(dues: &mut BinaryHeap<Reverse<(u64, u64)>>, due: u64, number: u64)
    requires room { heap_len dues.old < heap_capacity dues.old }
    requires heap { IsHeap by_due (heap_items dues.old) }
    ensures heap { IsHeap by_due (heap_items dues.new) }
    ensures entries { IsPermutation (entry due number ∷ heap_items dues.old) (heap_items dues.new) }
    ensures count { heap_len dues.new ≡ heap_len dues.old + 1 }
    ensures capacity { heap_capacity dues.old ≤ heap_capacity dues.new }
{
    match dues.push(Reverse((due, number))) {
        Ok(()) => {}
        Err(_) => unreachable!(),
    }
}

/// Whether a flight waits that has this due and this number.
fn waits(flights: &HashMap<u64, WaitingFlight>, due: u64, number: u64) -> bool
    ensures { result ≡ is_waiting (flight_in flights.now) (entry due number) }
{
    match flights.get(&number) {
        Some(flight) => flight.due == due,
        None => false,
    }
}

/// Leaves out the entries of flights that have left.
fn keep_waiting(dues: &mut BinaryHeap<Reverse<(u64, u64)>>, flights: &HashMap<u64, WaitingFlight>)
    ensures heap { IsHeap by_due (heap_items dues.new) }
    ensures listed { AreListed (flight_in flights.now) (heap_items dues.old)
        → AreListed (flight_in flights.now) (heap_items dues.new) }
    ensures kept { All (λ e. is_waiting (flight_in flights.now) e ≡ true) (heap_items dues.new) }
    ensures bound { heap_len dues.new ≤ heap_len dues.old }
    ensures capacity { heap_capacity dues.new ≡ heap_capacity dues.old }
{
    dues.retain(|Reverse((due, number))| waits(flights, *due, *number));
}

/// Whether the least due of the heap lies before the reference.
fn begin_before(dues: &BinaryHeap<Reverse<(u64, u64)>>, reference: u64) -> bool
    requires { IsHeap by_due (heap_items dues.now) }
    ensures { result ≡ false → All (λ e. reference ≤ e.0.0) (heap_items dues.now) }
{
    match dues.peek() {
        Some(Reverse((due, _))) => *due < reference,
        None => false,
    }
}

/// Takes out the entry of the least due, if that lies before the reference, and gives its number.
fn pop_before(dues: &mut BinaryHeap<Reverse<(u64, u64)>>, reference: u64) -> Option<u64>
    requires { IsHeap by_due (heap_items dues.old) }
    ensures heap { IsHeap by_due (heap_items dues.new) }
    ensures popped { IfSome result (λ number. (due : ℕ) × (due < reference)
        × IsPermutation (heap_items dues.old) (entry due number ∷ heap_items dues.new)) }
    ensures none { IfNone result (All (λ e. reference ≤ e.0.0) (heap_items dues.old)) }
    ensures kept { IfNone result (heap_items dues.new ≡ heap_items dues.old) }
    ensures count { heap_len dues.new + (if is_some result then 1 else 0) ≡ heap_len dues.old }
    ensures capacity { heap_capacity dues.new ≡ heap_capacity dues.old }
{
    match dues.peek() {
        Some(Reverse((due, _))) if *due < reference => {}
        _ => return None,
    }
    match dues.pop() {
        Some(Reverse((_, number))) => Some(number),
        None => unreachable!(),
    }
}

/// Takes out the flight of a number, if its due lies before the reference.
fn take_overdue(
    flights: &mut HashMap<u64, WaitingFlight>,
    number: u64,
    reference: u64,
) -> Option<WaitingFlight>
    ensures flight { IfSome result
        (λ f. (flight_in flights.old number ≡ Some f) × (f.due < reference)) }
    ensures flights { (n : ℕ)
        → flight_in flights.new n
        ≡ (if is_some result && nat_eq number n then None else flight_in flights.old n) }
    ensures none { IfNone result
        ((f : WaitingFlight) → flight_in flights.old number ≡ Some f → reference ≤ f.due) }
    ensures count { hash_map_len flights.new + (if is_some result then 1 else 0)
        ≡ hash_map_len flights.old }
    ensures room { spare flights.old ≤ spare flights.new }
{
    match flights.get(&number) {
        Some(flight) if flight.due < reference => {}
        _ => return None,
    }
    flights.remove(&number)
}
