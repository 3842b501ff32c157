//! Flights that wait for their receipt in the order in which they were sent.
ghost use Rattle.std.specs.Prelude.{◌≡◌, ◌≤◌, ◌<◌, ◌+◌, ◌-◌, ◌*◌, ◌^◌, ℕ, All, filter, max, None, Some, is_some, OnOk, IfNone, IfSome, IsTrue, ◌↔◌, nat_eq, length, slice_index_or, false, true, if◌then◌else◌};
ghost use Rattle.std.specs.VecDeque.{deque_len, deque_capacity};
ghost use Rattle.sd_num.specs.Lists.{map_or};
ghost use Rattle.sd_monitors.specs.loss.flights.OrderlyKept.{waits_at, AreInOrder, AreInOrder-prop};

use crate::loss::flights::WaitingFlight;
use sd_num::NoMemory;
use std::alloc::Global;
use std::collections::VecDeque;

/// A flight, and whether it still waits: one that was received stays where it is until it is the
/// first.
#[derive(Clone, Copy)]
pub(crate) struct Entry {
    flight: WaitingFlight,
    waits: bool,
}

/// Flights with ascending numbers, whose dues do not fall: so the first is due first, and a number
/// is found by its place. Each flight costs one push and one pop, and nothing is hashed. Where there
/// is no more room, all that were received are dropped, so that there is memory for at most twice as
/// many as ever waited at once, and as many as room was asked for.
#[derive(Drop)]
pub(crate) struct Orderly {
    entries: VecDeque<Entry>,
    ghost order: { AreInOrder entries.items } by { AreInOrder-prop entries.items },
}

impl Orderly {
    ghost use Rattle.sd_monitors.specs.loss.flights.OrderlyView.{orderly_at, orderly_count, orderly_places, orderly_room, AllWait, AreBefore};

    /// No flights.
    pub fn new(alloc: Global) -> Orderly
        ensures flights { (n : ℕ) → orderly_at result n ≡ None }
        ensures count { orderly_count result ≡ 0 }
    {
        Orderly {
            entries: VecDeque::new(alloc),
        }
    }

    /// Makes room for this many more flights. With too little room, it keeps only those that wait.
    pub fn ready(&mut self, count: usize) -> Result<(), NoMemory>
        ensures room { OnOk result (count ≤ orderly_room self.new) }
        ensures grows { orderly_room self.old ≤ orderly_room self.new }
        ensures flights { (n : ℕ) → orderly_at self.new n ≡ orderly_at self.old n }
        ensures count { orderly_count self.new ≤ orderly_count self.old }
        ensures places { orderly_places self.new
            ≤ max (orderly_places self.old) (2 * orderly_count self.new + count) }
        ensures kept { orderly_room self.old < count → AllWait self.new }
    {
        if count <= self.entries.capacity().saturating_sub(self.entries.len()) {
            return Ok(());
        }
        drop_all_received(&mut self.entries);
        // for as many again as wait, so that they are gone over only now and then
        let more = count.saturating_add(self.entries.len());
        match self.entries.reserve_exact(more) {
            Ok(()) => Ok(()),
            Err(_) => Err(NoMemory),
        }
    }

    /// How many flights are kept.
    pub fn len(&self) -> usize
        ensures count { result ≡ orderly_count self.now }
        ensures small { result < 2 ^ 63 }
    {
        self.entries.len()
    }

    /// Whether the flight may stand after all others.
    pub fn is_followed_by(&self, flight: &WaitingFlight) -> bool
        ensures { IsTrue result ↔ AreBefore self.now flight.now }
    {
        match self.entries.back() {
            Some(last) => last.flight.number < flight.number && last.flight.due <= flight.due,
            None => true,
        }
    }

    /// Adds a flight after all others.
    pub fn add(&mut self, flight: WaitingFlight)
        requires order { AreBefore self.old flight }
        requires room { 1 ≤ orderly_room self.old }
        ensures flights { (n : ℕ)
            → orderly_at self.new n
            ≡ (if nat_eq flight.number n then Some flight else orderly_at self.old n) }
        ensures count { orderly_count self.new ≡ orderly_count self.old + 1 }
        ensures room { orderly_room self.old ≡ orderly_room self.new + 1 }
    {
        let entry = Entry {
            flight,
            waits: true,
        };
        self.entries.push_back_reserved(entry);
    }

    /// Lets the flight of a number wait no longer, and tells whether it did.
    pub fn receive(&mut self, number: u64) -> bool
        ensures waited { result ≡ is_some (orderly_at self.old number) }
        ensures flights { (n : ℕ)
            → orderly_at self.new n ≡ (if nat_eq number n then None else orderly_at self.old n) }
        ensures count { orderly_count self.new ≤ orderly_count self.old }
        ensures room { orderly_room self.old ≤ orderly_room self.new }
    {
        match place_of(&self.entries, number) {
            Some(place) => {
                let waited = strike(&mut self.entries, place);
                drop_received(&mut self.entries);
                waited
            }
            None => false,
        }
    }

    /// Whether the first flight lies past its due at the reference: if not, none does that waits.
    #[inline(always)]
    pub fn may_be_overdue(&self, reference: u64) -> bool
        ensures { result ≡ false → (n : ℕ) (f : WaitingFlight) → orderly_at self.now n ≡ Some f
            → reference ≤ f.due }
    {
        match self.entries.front() {
            Some(first) => first.flight.due < reference,
            None => false,
        }
    }

    /// Takes out a flight whose due lies before the reference, as long as there is one.
    pub fn next_overdue(&mut self, reference: u64) -> Option<WaitingFlight>
        ensures flight { IfSome result
            (λ f. (orderly_at self.old f.number ≡ Some f) × (f.due < reference)) }
        ensures flights { (n : ℕ)
            → orderly_at self.new n
            ≡ (if map_or result false (λ f. nat_eq f.number n) then None else orderly_at self.old
            n) }
        ensures none { IfNone result ((n : ℕ) (f : WaitingFlight) → orderly_at self.new n ≡ Some f
            → reference ≤ f.due) }
        ensures count { orderly_count self.new + (if is_some result then 1 else 0)
            ≤ orderly_count self.old }
        ensures room { orderly_room self.old ≤ orderly_room self.new }
    {
        drop_received(&mut self.entries);
        match self.entries.front() {
            Some(first) if first.flight.due < reference => {}
            _ => return None,
        }
        match self.entries.pop_front() {
            Some(entry) => Some(entry.flight),
            None => unreachable!(),
        }
    }
}

/// The place of the first entry with no smaller number, by halving.
fn place_from(entries: &VecDeque<Entry>, number: u64) -> usize
    requires { AreInOrder entries.now.items }
    ensures bound { result ≤ length entries.now.items }
    ensures before { (k : ℕ) (d : Entry) → k < result
        → (slice_index_or entries.now.items k d).flight.number < number }
    ensures after { (k : ℕ) (d : Entry) → result ≤ k → k < length entries.now.items
        → number ≤ (slice_index_or entries.now.items k d).flight.number }
{
    entries.partition_point(|entry| entry.flight.number < number)
}

/// The place of the entry with a number while each number after it has its place.
fn place_guessed(entries: &VecDeque<Entry>, number: u64) -> Option<usize>
    ensures place { IfSome result (λ i. i < length entries.now.items) }
    ensures number { IfSome result (λ i. (d : Entry)
        → (slice_index_or entries.now.items i d).flight.number ≡ number) }
{
    let after = entries.back()?.flight.number.checked_sub(number)?;
    let place = entries
        .len()
        .checked_sub(usize::try_from(after).ok()?)?
        .checked_sub(1)?;
    match entries.get(place) {
        Some(entry) if entry.flight.number == number => Some(place),
        _ => None,
    }
}

/// The place of the entry with a number.
fn place_of(entries: &VecDeque<Entry>, number: u64) -> Option<usize>
    requires { AreInOrder entries.now.items }
    ensures place { IfSome result (λ i. i < length entries.now.items) }
    ensures number { IfSome result (λ i. (d : Entry)
        → (slice_index_or entries.now.items i d).flight.number ≡ number) }
    ensures none { IfNone result (All (λ e. e.flight.number ≡ number → ⊥) entries.now.items) }
{
    if let Some(place) = place_guessed(entries, number) {
        return Some(place);
    }
    let place = place_from(entries, number);
    match entries.get(place) {
        Some(entry) if entry.flight.number == number => Some(place),
        _ => None,
    }
}

/// Lets the flight at a place wait no longer, and tells whether it did.
fn strike(entries: &mut VecDeque<Entry>, place: usize) -> bool
    requires order { AreInOrder entries.old.items }
    requires place { place < length entries.old.items }
    ensures waited { (number : ℕ)
        → ((d : Entry) → (slice_index_or entries.old.items place d).flight.number ≡ number)
        → result ≡ is_some (waits_at entries.old.items number) }
    ensures flights { (number : ℕ)
        → ((d : Entry) → (slice_index_or entries.old.items place d).flight.number ≡ number)
        → (n : ℕ) → waits_at entries.new.items n
        ≡ (if nat_eq number n then None else waits_at entries.old.items n) }
    ensures order { AreInOrder entries.new.items }
    ensures len { deque_len entries.new ≡ deque_len entries.old }
    ensures capacity { deque_capacity entries.new ≡ deque_capacity entries.old }
{
    let entry = &mut entries[place];
    let waited = entry.waits;
    entry.waits = false;
    waited
}

/// Drops what was received from the front, up to a flight that waits.
fn drop_received(entries: &mut VecDeque<Entry>)
    ensures flights { (n : ℕ) → waits_at entries.new.items n ≡ waits_at entries.old.items n }
    ensures first { (d : Entry) → 0 < length entries.new.items
        → (slice_index_or entries.new.items 0 d).waits ≡ true }
    ensures order { AreInOrder entries.old.items → AreInOrder entries.new.items }
    ensures bound { deque_len entries.new ≤ deque_len entries.old }
    ensures capacity { deque_capacity entries.new ≡ deque_capacity entries.old }
{
    'first: while let Some(first) = entries.front() {
        if first.waits {
            return;
        }
        let _received = entries.pop_front();
    }
}

/// Drops all that was received.
fn drop_all_received(entries: &mut VecDeque<Entry>)
    ensures items { entries.new.items ≡ filter (λ e. e.waits) entries.old.items }
    ensures flights { (n : ℕ) → waits_at entries.new.items n ≡ waits_at entries.old.items n }
    ensures waiting { All (λ e. e.waits ≡ true) entries.new.items }
    ensures order { AreInOrder entries.old.items → AreInOrder entries.new.items }
    ensures bound { deque_len entries.new ≤ deque_len entries.old }
    ensures capacity { deque_capacity entries.new ≡ deque_capacity entries.old }
{
    entries.retain(|entry| entry.waits);
}
