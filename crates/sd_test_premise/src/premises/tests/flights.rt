//! Each structure by a few of its calls.

use sd_device::msg::Stamp;
use sd_monitors::loss::flights::{Interruptions, Runs, Waiting, WaitingFlight};
use sd_num::NoMemory;
use sd_plan::topo::Thing;
use std::alloc::Global;
use std::process::Abort;
use std::test::Fail;

/// A flight over link 1 from device 2 to device 3.
fn flight(number: u64, due: u64) -> WaitingFlight {
    WaitingFlight {
        number,
        due,
        stamp: stamp(1, 1),
        link: 1,
        sender: 2,
        receiver: 3,
    }
}

fn stamp(term: u32, round: u64) -> Stamp {
    Stamp { term, round }
}

/// Flights that wait, added one by one: their numbers and dues.
fn waiting_of(alloc: Global, flights: &[(u64, u64)]) -> Result<Waiting, NoMemory> {
    let mut waiting = Waiting::new(alloc);
    for (number, due) in flights {
        waiting.ready(1)?;
        waiting.add(flight(*number, *due));
    }
    Ok(waiting)
}

/// At each reference the number of the flight that is overdue next; at the end none is left.
fn assert_overdue(rt: &impl Abort, waiting: &mut Waiting, rows: &[(u64, Option<u64>)]) {
    for (reference, next) in rows {
        let number = waiting.next_overdue(*reference).map(|flight| flight.number);
        assert_eq!(rt; number, *next, "at {reference}");
    }
    assert_eq!(rt; waiting.len(), 0);
}

#[test]
fn flights_come_out_by_their_dues(rt: HostRuntime) -> Result<(), Fail> {
    let mut waiting = waiting_of(rt.alloc(), &[(1, 30), (2, 10), (3, 20), (5, 15)])?;
    waiting.receive(Some(5));
    waiting.receive(Some(4));
    waiting.receive(None);
    assert_eq!(rt; waiting.len(), 3);
    let rows = [
        (10, None),
        (21, Some(2)),
        (21, Some(3)),
        (21, None),
        (31, Some(1)),
        (31, None),
    ];
    assert_overdue(&rt, &mut waiting, &rows);
    Ok(())
}

/// Flight 4 is added once more with a later due, in place of the first; 2 is received between the
/// others.
#[test]
fn flights_with_rising_dues_come_out_in_their_order(rt: HostRuntime) -> Result<(), Fail> {
    let flights = [(1, 10), (2, 20), (4, 20), (5, 30), (4, 25)];
    let mut waiting = waiting_of(rt.alloc(), &flights)?;
    waiting.receive(Some(2));
    waiting.receive(Some(3));
    let rows = [
        (10, None),
        (21, Some(1)),
        (21, None),
        (26, Some(4)),
        (26, None),
        (31, Some(5)),
        (31, None),
    ];
    assert_overdue(&rt, &mut waiting, &rows);
    Ok(())
}

/// Whether the flights 1 and 2 are interrupted, of which the thing fails between the two.
fn interrupted(alloc: Global, thing: Thing) -> Result<(bool, bool), NoMemory> {
    let mut interruptions = Interruptions::new(alloc, 5, 3)?;
    interruptions.send(1);
    interruptions.fail(Some(thing));
    interruptions.fail(None);
    interruptions.send(2);
    let first = interruptions.interrupted(&flight(1, 0));
    let second = interruptions.interrupted(&flight(2, 0));
    Ok((first, second))
}

#[test]
fn failures_of_a_flights_ends_and_link_interrupt_it(rt: HostRuntime) -> Result<(), Fail> {
    for (thing, wanted) in [
        (Thing::Device(2), true),
        (Thing::Device(3), true),
        (Thing::Link(1), true),
        (Thing::Device(1), false),
        (Thing::Link(2), false),
        (Thing::Device(9), false),
    ] {
        assert_eq!(rt;
            interrupted(rt.alloc(), thing)?,
            (wanted, false),
            "{thing:?}"
        );
    }
    Ok(())
}

#[test]
fn rounds_join_up_to_the_limit(rt: HostRuntime) -> Result<(), Fail> {
    let mut runs = Runs::new(rt.alloc());
    for (term, round, long) in [
        (1, 5, false),
        (1, 7, false),
        (1, 5, false),
        (2, 6, false),
        (1, 9, false),
        (1, 8, false),
        (1, 6, true),
        (2, u64::MAX, false),
        (2, 0, false),
    ] {
        runs.ready(1)?;
        let longer = runs.spoil(stamp(term, round), 3);
        assert_eq!(rt; longer, long, "{term} {round}");
    }
    Ok(())
}
