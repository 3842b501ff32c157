//! The flights of a book, by ascending number.
ghost use Rattle.std.specs.Prelude.{◌≡◌, ℕ, ◌+◌, ◌-◌, ◌<◌, ◌≤◌, All, filter, length, Ok, Err, IfOk, IfErr, IfSome, IfNone, true, slice_index_or, slice_set};
ghost use Rattle.std.specs.VecDeque.{deque_len, deque_capacity};
ghost use Rattle.sd_device.specs.msg.Books.{AreNumbered, found, for_device, without};
ghost use Rattle.sd_device.specs.msg.Spent.{is_left, as_spent, AreKept, size_of};

use crate::msg::spent::Spent;
use crate::msg::{Flight, TakeFault};
use std::collections::VecDeque;

/// The flight with a number and its place, if each number after it has the next place.
#[inline(always)]
fn flight_guessed(flights: &VecDeque<Flight>, last: u64, number: u64) -> Option<(usize, &Flight)>
    requires { number ≤ last }
    ensures place { IfSome result (λ p. p.0 < length flights.now.items) }
    ensures item { IfSome result
        (λ p. (d : Flight) → p.1.now ≡ slice_index_or flights.now.items p.0 d) }
    ensures number { IfSome result (λ p. p.1.now.number ≡ number) }
{
    let after = last - number;
    let count = flights.len();
    if after >= count as u64 {
        return None;
    }
    let place = count - 1 - after as usize;
    let flight = &flights[place];
    if flight.number != number {
        return None;
    }
    Some((place, flight))
}

/// The place of the first flight with no smaller number, by halving.
fn place_from(flights: &VecDeque<Flight>, number: u64) -> usize
    ensures bound { result ≤ length flights.now.items }
    ensures before { (top : ℕ) → AreNumbered 0 top flights.now.items → (k : ℕ) (d : Flight)
        → k < result → (slice_index_or flights.now.items k d).number < number }
    ensures after { (top : ℕ) → AreNumbered 0 top flights.now.items → (k : ℕ) (d : Flight)
        → result ≤ k → k < length flights.now.items
        → number ≤ (slice_index_or flights.now.items k d).number }
{
    flights.partition_point(|flight| flight.number < number)
}

/// The flight with a number and its place, by halving.
#[cold]
#[inline(never)]
fn flight_searched(flights: &VecDeque<Flight>, number: u64) -> Option<(usize, &Flight)>
    ensures place { IfSome result (λ p. p.0 < length flights.now.items) }
    ensures item { IfSome result
        (λ p. (d : Flight) → p.1.now ≡ slice_index_or flights.now.items p.0 d) }
    ensures number { IfSome result (λ p. p.1.now.number ≡ number) }
    ensures none { IfNone result ((top : ℕ) → AreNumbered 0 top flights.now.items
        → All (λ f. f.number ≡ number → ⊥) flights.now.items) }
{
    let place = place_from(flights, number);
    let flight = flights.get(place)?;
    if flight.number != number {
        return None;
    }
    Some((place, flight))
}

/// The flight with a number, of those given up to the last, and its place, or why there is none.
#[inline(always)]
pub(crate) fn flight_given(
    flights: &VecDeque<Flight>,
    last: u64,
    number: u64,
) -> Result<(usize, &Flight), TakeFault>
    requires { AreNumbered 0 last flights.now.items }
    ensures place { IfOk result (λ p. p.0 < length flights.now.items) }
    ensures item { IfOk result
        (λ p. (d : Flight) → p.1.now ≡ slice_index_or flights.now.items p.0 d) }
    ensures number { IfOk result (λ p. p.1.now.number ≡ number) }
    ensures flight { IfOk result (λ p. found last flights.now.items number ≡ Ok p.1.now) }
    ensures fault { IfErr result (λ e. found last flights.now.items number ≡ Err e) }
{
    if number == 0 || number > last {
        return Err(TakeFault::Unknown);
    }
    // Only one from before places were given up may have to be searched.
    match flight_guessed(flights, last, number) {
        Some((place, flight)) => Ok((place, flight)),
        None => match flight_searched(flights, number) {
            Some((place, flight)) => Ok((place, flight)),
            None => Err(TakeFault::Spent),
        },
    }
}

/// The same of those that are left.
#[inline(always)]
pub(crate) fn flight_left<'b>(
    flights: &'b VecDeque<Flight>,
    last: u64,
    spent: &Spent,
    number: u64,
) -> Result<(usize, &'b Flight), TakeFault>
    requires kept { AreKept last spent.now flights.now.items }
    ensures place { IfOk result (λ p. p.0 < length flights.now.items) }
    ensures item { IfOk result
        (λ p. (d : Flight) → p.1.now ≡ slice_index_or flights.now.items p.0 d) }
    ensures number { IfOk result (λ p. p.1.now.number ≡ number) }
    ensures flight { IfOk result
        (λ p. found last (filter (is_left spent.now) flights.now.items) number
        ≡ Ok p.1.now) }
    ensures fault { IfErr result
        (λ e. found last (filter (is_left spent.now) flights.now.items) number
        ≡ Err e) }
{
    let (place, flight) = flight_given(flights, last, number)?;
    if !spent.leaves(flight) {
        return Err(TakeFault::Spent);
    }
    Ok((place, flight))
}

/// The same for a device, which has to be the receiver.
#[inline(always)]
pub(crate) fn flight_for<'b>(
    flights: &'b VecDeque<Flight>,
    last: u64,
    spent: &Spent,
    number: u64,
    device: u32,
) -> Result<(usize, &'b Flight), TakeFault>
    requires kept { AreKept last spent.now flights.now.items }
    ensures place { IfOk result (λ p. p.0 < length flights.now.items) }
    ensures item { IfOk result
        (λ p. (d : Flight) → p.1.now ≡ slice_index_or flights.now.items p.0 d) }
    ensures number { IfOk result (λ p. p.1.now.number ≡ number) }
    ensures flight { IfOk result (λ p. for_device device
        (found last (filter (is_left spent.now) flights.now.items) number)
        ≡ Ok p.1.now) }
    ensures fault { IfErr result (λ e. for_device device
        (found last (filter (is_left spent.now) flights.now.items) number)
        ≡ Err e) }
{
    let (place, flight) = flight_left(flights, last, spent, number)?;
    if flight.receiver != device {
        return Err(TakeFault::WrongDevice);
    }
    Ok((place, flight))
}

/// Spends the flight at a place: it stays there as one that does not reach.
#[inline(always)]
pub(crate) fn spend(flights: &mut VecDeque<Flight>, last: u64, spent: &Spent, place: usize)
    requires kept { AreKept last spent.now flights.old.items }
    requires place { place < length flights.old.items }
    ensures left { (d : Flight)
        → filter (is_left spent.now) flights.new.items
        ≡ without (slice_index_or flights.old.items place d).number
        (filter (is_left spent.now) flights.old.items) }
    ensures items { (d : Flight)
        → flights.new.items
        ≡ slice_set flights.old.items place (as_spent (slice_index_or flights.old.items place d)) }
    ensures kept { AreKept last spent.now flights.new.items }
    ensures len { deque_len flights.new ≡ deque_len flights.old }
    ensures capacity { deque_capacity flights.new ≡ deque_capacity flights.old }
{
    flights[place].reaches = false;
}

/// Gives up the places of those that are spent at the front, up to one that is left.
pub(crate) fn drop_first(flights: &mut VecDeque<Flight>, spent: &Spent)
    ensures left { filter (is_left spent.now) flights.new.items
        ≡ filter (is_left spent.now) flights.old.items }
    ensures first { (d : Flight) → 0 < length flights.new.items
        → is_left spent.now (slice_index_or flights.new.items 0 d) ≡ true }
    ensures kept { (last : ℕ) → AreKept last spent.now flights.old.items
        → AreKept last spent.now flights.new.items }
    ensures bound { deque_len flights.new ≤ deque_len flights.old }
    ensures capacity { deque_capacity flights.new ≡ deque_capacity flights.old }
{
    while let Some(first) = flights.front() {
        if spent.leaves(first) {
            return;
        }
        let _spent = flights.pop_front();
    }
}

/// Gives up the places of all that are spent.
#[cold]
#[inline(never)]
pub(crate) fn drop_spent(flights: &mut VecDeque<Flight>, spent: &Spent)
    ensures left { flights.new.items ≡ filter (is_left spent.now) flights.old.items }
    ensures kept { (last : ℕ) → AreKept last spent.now flights.old.items
        → AreKept last spent.now flights.new.items }
    ensures bound { deque_len flights.new ≤ deque_len flights.old }
    ensures capacity { deque_capacity flights.new ≡ deque_capacity flights.old }
{
    flights.retain(|flight| spent.leaves(flight));
}

/// Gives up what is spent, where a flight with this `last` would be spent with it.
#[inline(always)]
pub(crate) fn reopen(flights: &mut VecDeque<Flight>, spent: &mut Spent, last: u64)
    ensures reference { spent.new.reference ≤ last }
    ensures left { filter (is_left spent.new) flights.new.items
        ≡ filter (is_left spent.old) flights.old.items }
    ensures kept { (number : ℕ) → AreKept number spent.old flights.old.items
        → AreKept number spent.new flights.new.items }
    ensures bound { deque_len flights.new ≤ deque_len flights.old }
    ensures capacity { deque_capacity flights.new ≡ deque_capacity flights.old }
    ensures size { size_of spent.new ≡ size_of spent.old }
{
    if spent.reference <= last {
        return;
    }
    drop_spent(flights, spent);
    spent.reopen(last);
}

/// For how many more flights there is room.
pub(crate) fn room(flights: &VecDeque<Flight>) -> usize
    ensures { result ≡ deque_capacity flights.now - deque_len flights.now }
{
    flights.capacity().saturating_sub(flights.len())
}
