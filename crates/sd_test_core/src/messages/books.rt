//! A book against worked cases, and against a plain one.

ghost use Rattle.std.specs.Prelude.{◌≡◌, ◌≤◌, IfOk};

use super::calls::{Answer, Call, DEVICES, LINKS, Tried, flight};
use super::flagged::AllFlights;
use super::numbers::Numbers;
use crate::same::assert_same;
use sd_device::msg::{Flight, FlightBook, TakeFault};
use sd_num::NoMemory;
use sd_plan::topo::Thing;
use std::alloc::Global;
use std::process::Abort;

/// The flight with its number.
fn numbered(number: u64, flight: Flight) -> Answer {
    Answer::Found(Flight { number, ..flight })
}

fn look(number: u64) -> Call {
    Call::Look { number }
}

fn take(number: u64, device: u32) -> Call {
    Call::Take { number, device }
}

fn lose(number: u64) -> Call {
    Call::Lose { number }
}

/// Each call answers as it is to.
fn assert_answers(rt: &(impl AllocGlobal + Abort), tried: &mut Tried, rows: &[(Call, Answer)]) {
    for (call, wanted) in rows {
        assert_eq!(rt; tried.call(rt.alloc(), *call), *wanted, "{call:?}");
    }
}

const UNKNOWN: Answer = Answer::Failed(TakeFault::Unknown);

const SPENT: Answer = Answer::Failed(TakeFault::Spent);

const WRONG: Answer = Answer::Failed(TakeFault::WrongDevice);

fn first() -> Flight {
    flight(0, 1, 10, true)
}

fn fifth() -> Flight {
    flight(1, 4, 50, true)
}

/// Six flights are sent, of which the third does not reach.
fn send_six(rt: &(impl AllocGlobal + Abort), tried: &mut Tried) {
    assert_answers(
        rt,
        tried,
        &[
            (look(0), UNKNOWN),
            (look(1), UNKNOWN),
            (Call::Send(first()), Answer::Sent(1)),
            (Call::Send(flight(1, 2, 20, true)), Answer::Sent(2)),
            (Call::Send(flight(1, 3, 30, false)), Answer::Sent(3)),
            (Call::Send(flight(2, 2, 40, true)), Answer::Sent(4)),
            (Call::Send(fifth()), Answer::Sent(5)),
            (Call::Send(first()), Answer::Sent(6)),
            (look(0), UNKNOWN),
            (look(3), SPENT),
            (look(5), numbered(5, fifth())),
            (look(7), UNKNOWN),
        ],
    );
}

/// Some of them are taken and lost.
fn take_and_lose(rt: &(impl AllocGlobal + Abort), tried: &mut Tried) {
    assert_answers(
        rt,
        tried,
        &[
            (take(7, 1), UNKNOWN),
            (take(3, 1), SPENT),
            (take(1, 2), WRONG),
            (take(1, 1), numbered(1, first())),
            (take(1, 2), SPENT),
            (lose(0), UNKNOWN),
            (lose(3), SPENT),
            (lose(4), Answer::Lost),
            (lose(4), SPENT),
        ],
    );
}

/// A thing fails, and time goes on.
fn sweep_and_purge(rt: &(impl AllocGlobal + Abort), tried: &mut Tried) {
    assert_answers(
        rt,
        tried,
        &[
            (Call::Sweep(Thing::Link(4)), Answer::Done),
            (look(5), numbered(5, fifth())),
            (Call::Sweep(Thing::Link(1)), Answer::Done),
            (look(2), SPENT),
            (look(5), SPENT),
            (Call::Purge { reference: 10 }, Answer::Done),
            (look(6), numbered(6, first())),
            (Call::Purge { reference: 11 }, Answer::Done),
            (look(6), SPENT),
        ],
    );
}

/// One more is sent, and its receiver fails.
fn send_one_more(rt: &(impl AllocGlobal + Abort), tried: &mut Tried) {
    assert_answers(
        rt,
        tried,
        &[
            (Call::Send(fifth()), Answer::Sent(7)),
            (Call::Sweep(Thing::Device(1)), Answer::Done),
            (look(7), numbered(7, fifth())),
            (Call::Sweep(Thing::Device(4)), Answer::Done),
            (look(7), SPENT),
            (look(8), UNKNOWN),
        ],
    );
}

#[test]
fn each_call_answers_as_a_list_of_what_is_not_spent(rt: HostRuntime) -> Result<(), NoMemory> {
    let mut tried = Tried::new(rt.alloc())?;
    send_six(&rt, &mut tried);
    take_and_lose(&rt, &mut tried);
    sweep_and_purge(&rt, &mut tried);
    send_one_more(&rt, &mut tried);
    drop(tried);
    Ok(())
}

/// A book for two flights. No more is promised than what it takes to send them.
fn book_for_two(alloc: Global) -> Result<FlightBook, NoMemory>
    ensures devices { IfOk result (λ book. book.size.devices ≡ 7) }
    ensures links { IfOk result (λ book. book.size.links ≡ 9) }
    ensures last { IfOk result (λ book. book.last ≡ 0) }
    ensures room { IfOk result (λ book. 2 ≤ book.room) }
{
    let mut book = FlightBook::new(alloc, DEVICES, LINKS)?;
    match book.ready(alloc, 2) {
        Ok(()) => Ok(book),
        Err(fault) => {
            drop(book);
            Err(fault)
        }
    }
}

/// Two flights are sent, and the second is found.
fn assert_room(rt: &impl Abort, book: &mut FlightBook)
    requires devices { book.old.size.devices ≡ 7 }
    requires links { book.old.size.links ≡ 9 }
    requires last { book.old.last ≡ 0 }
    requires room { 2 ≤ book.old.room }
{
    assert_same(rt, book.send(flight(0, 1, 10, true)), 1);
    assert_same(rt, book.send(flight(0, 1, 10, true)), 2);
    assert_same(
        rt,
        book.look(2),
        Ok(Flight {
            number: 2,
            ..flight(0, 1, 10, true)
        }),
    );
}

#[test]
fn room_serves_for_as_many_as_it_was_made_for(rt: HostRuntime) -> Result<(), NoMemory> {
    let mut book = book_for_two(rt.alloc())?;
    assert_room(&rt, &mut book);
    drop(book);
    Ok(())
}

/// How often each fault was answered.
#[derive(Debug, Drop)]
struct Faults {
    unknown: u32,
    spent: u32,
    wrong: u32,
}

impl Faults {
    fn note(&mut self, answer: Answer) {
        match answer {
            Answer::Failed(TakeFault::Unknown) => self.unknown = self.unknown.saturating_add(1),
            Answer::Failed(TakeFault::Spent) => self.spent = self.spent.saturating_add(1),
            Answer::Failed(TakeFault::WrongDevice) => self.wrong = self.wrong.saturating_add(1),
            _ => {}
        }
    }

    fn are_many(&self) -> bool {
        self.unknown >= 20 && self.spent >= 20 && self.wrong >= 20
    }
}

/// A call of both, which answer the same.
fn assert_call(
    rt: &(impl AllocGlobal + Abort),
    tried: &mut Tried,
    all: &mut AllFlights,
    call: Call,
    round: u64,
) -> Answer {
    let answer = tried.call(rt.alloc(), call);
    assert_eq!(rt; answer, all.call(call), "round {round}: {call:?}");
    answer
}

/// A round of calls, and then each flight is looked up.
fn assert_round(
    rt: &(impl AllocGlobal + Abort),
    tried: &mut Tried,
    all: &mut AllFlights,
    faults: &mut Faults,
    round: u64,
) {
    let mut numbers = Numbers { state: round };
    for place in 0..400u64 {
        let call = numbers.call(place, &*all);
        faults.note(assert_call(rt, tried, all, call, round));
    }
    for number in 0..all.count() {
        assert_call(rt, tried, all, look(number), round);
    }
}

/// The same, where both books are made.
fn run_round(
    rt: &(impl AllocGlobal + Abort),
    faults: &mut Faults,
    round: u64,
) -> Result<(), NoMemory> {
    let mut tried = Tried::new(rt.alloc())?;
    let mut all = AllFlights::new(rt.alloc());
    assert_round(rt, &mut tried, &mut all, faults, round);
    drop(tried);
    Ok(())
}

#[test]
fn a_book_does_as_a_plain_one_that_keeps_all_flights(rt: HostRuntime) -> Result<(), NoMemory> {
    let mut faults = Faults {
        unknown: 0,
        spent: 0,
        wrong: 0,
    };
    for round in 0..8u64 {
        run_round(&rt, &mut faults, round)?;
    }
    assert!(rt; faults.are_many(), "{faults:?}");
    Ok(())
}

/// A flight as all of those that follow.
fn sent() -> Flight {
    flight(4, 3, 1_000, true)
}

/// It is sent, and gets this number.
fn assert_sent(rt: &(impl AllocGlobal + Abort), tried: &mut Tried, number: u64) {
    assert_same(
        rt,
        tried.call(rt.alloc(), Call::Send(sent())),
        Answer::Sent(number),
    );
}

/// The one with a number is taken.
fn assert_taken(rt: &(impl AllocGlobal + Abort), tried: &mut Tried, number: u64) {
    assert_same(
        rt,
        tried.call(rt.alloc(), take(number, 3)),
        numbered(number, sent()),
    );
}

/// As many flights are sent, numbered from 1.
fn assert_all_sent(rt: &(impl AllocGlobal + Abort), tried: &mut Tried, count: u64) {
    for number in 1..=count {
        assert_sent(rt, tried, number);
    }
}

/// They are taken backwards, and are spent then.
fn assert_taken_backwards(rt: &(impl AllocGlobal + Abort), tried: &mut Tried, count: u64) {
    for number in (1..=count).rev() {
        assert_taken(rt, tried, number);
        assert_same(rt, tried.call(rt.alloc(), take(number, 3)), SPENT);
    }
}

#[test]
fn ten_thousand_flights_are_taken_backwards(rt: HostRuntime) -> Result<(), NoMemory> {
    let mut tried = Tried::new(rt.alloc())?;
    assert_all_sent(&rt, &mut tried, 10_000);
    assert_taken_backwards(&rt, &mut tried, 10_000);
    drop(tried);
    Ok(())
}

/// How many are on their way at once, and how many are taken meanwhile.
const ON_THEIR_WAY: u64 = 10_000;

const TAKES: u64 = 100_000;

/// Of each sixteen the latest is taken first, and after each take another is sent.
fn assert_taken_in_turn(rt: &(impl AllocGlobal + Abort), tried: &mut Tried) {
    for turn in 0..TAKES {
        let number = turn / 16 * 16 + 16 - turn % 16;
        assert_taken(rt, tried, number);
        assert_sent(rt, tried, ON_THEIR_WAY + 1 + turn);
    }
}

#[test]
fn many_on_their_way_are_taken_in_about_their_order(rt: HostRuntime) -> Result<(), NoMemory> {
    let mut tried = Tried::new(rt.alloc())?;
    assert_all_sent(&rt, &mut tried, ON_THEIR_WAY);
    assert_taken_in_turn(&rt, &mut tried);
    drop(tried);
    Ok(())
}

/// How many are on their way for long, and how many are sent and taken meanwhile.
const LONG_ON_THEIR_WAY: u64 = 3;

const MEANWHILE: u64 = 100_000;

/// Each is sent and taken at once, and then spent.
fn assert_sent_and_taken(rt: &(impl AllocGlobal + Abort), tried: &mut Tried) {
    for number in LONG_ON_THEIR_WAY + 1..=LONG_ON_THEIR_WAY + MEANWHILE {
        assert_sent(rt, tried, number);
        assert_taken(rt, tried, number);
        assert_same(rt, tried.call(rt.alloc(), look(number)), SPENT);
    }
}

#[test]
fn a_few_that_are_long_on_their_way_are_taken_after_many_others(
    rt: HostRuntime,
) -> Result<(), NoMemory> {
    let mut tried = Tried::new(rt.alloc())?;
    assert_all_sent(&rt, &mut tried, LONG_ON_THEIR_WAY);
    assert_sent_and_taken(&rt, &mut tried);
    assert_taken_backwards(&rt, &mut tried, LONG_ON_THEIR_WAY);
    drop(tried);
    Ok(())
}
