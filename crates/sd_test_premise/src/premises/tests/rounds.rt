//! Short schedules at each boundary of the premise of loss. Up to two consecutive rounds of one
//! term may be spoiled, and each flight is due 10 after it is sent.

use sd_device::msg::{Flight, Message, Stamp};
use sd_monitors::loss::rounds::Rounds;
use sd_num::NoMemory;
use sd_plan::topo::{Thing, Topology};
use sd_sched::Event;
use sd_test_examples::topology_of;
use sd_world::world::failure_of;
use std::alloc::Global;
use std::process::Abort;
use std::test::Fail;

const NETWORK: &str = r#"
version = 1
ppm = 0
grain = 0
period = 100
tick = 100
loss = 2
depth = 1
roots = ["a"]
device = [{ name = "a" }, { name = "b" }, { name = "c" }]
link = [{ name = "ab", ends = ["a", "b"], min = 0, max = 10 }, { name = "bc", ends = ["b", "c"], min = 0, max = 10 }]
"#;

/// One event, by its reference. Flights have the place of their sending as their number, from 1.
#[derive(Clone, Copy, Debug)]
enum Step {
    /// The device a sends b a message of this term and round.
    Send { at: u64, term: u32, round: u64 },
    /// The device b receives this flight.
    Receive { at: u64, number: u64 },
    Fail { at: u64, thing: Thing },
    /// Nothing but that time goes on.
    Pass { at: u64 },
}

fn send(at: u64, round: u64) -> Step {
    Step::Send { at, term: 1, round }
}

fn receive(at: u64, number: u64) -> Step {
    Step::Receive { at, number }
}

fn pass(at: u64) -> Step {
    Step::Pass { at }
}

/// The event of a step.
fn event(step: Step) -> Event {
    match step {
        Step::Receive { at, number } => Event::Recv {
            reference: at,
            device: 1,
            counter: at,
            message: number,
        },
        Step::Fail {
            at,
            thing: Thing::Device(device),
        } => Event::FailDevice {
            reference: at,
            device,
        },
        Step::Fail {
            at,
            thing: Thing::Link(link),
        } => Event::FailLink {
            reference: at,
            link,
        },
        Step::Send { at, .. } | Step::Pass { at } => Event::Tick {
            reference: at,
            device: 0,
            counter: at,
        },
    }
}

/// A flight from a to b.
fn flight(number: u64, at: u64, stamp: Stamp) -> Flight {
    Flight {
        number,
        link: 0,
        sender: 0,
        receiver: 1,
        sent_at: at,
        due: at.saturating_add(10),
        last: at.saturating_add(20),
        reaches: true,
        message: Message {
            epoch: 1,
            stamp,
            clock: 0,
            eps: 0,
        },
    }
}

/// What the monitor answers to one step, for which room is made.
fn judge(alloc: Global, rounds: &mut Rounds, number: u64, step: Step) -> Result<bool, NoMemory> {
    let event = event(step);
    let (reference, failed) = (event.reference(), failure_of(&event));
    match step {
        Step::Send { at, term, round } => {
            rounds.ready(alloc, 1)?;
            let sent = [flight(number, at, Stamp { term, round })];
            Ok(rounds.see(reference, failed, None, &sent))
        }
        Step::Receive { number, .. } => Ok(rounds.see(reference, failed, Some(number), &[])),
        _ => Ok(rounds.see(reference, failed, None, &[])),
    }
}

/// At how many of the first steps the premise holds; once broken, it stays so.
fn held(alloc: Global, topo: &Topology, steps: &[Step]) -> Result<usize, NoMemory> {
    let mut rounds = Rounds::new(alloc, topo)?;
    let mut held = 0usize;
    for (i, step) in steps.iter().enumerate() {
        let holds = judge(alloc, &mut rounds, i as u64 + 1, *step)?;
        if holds && rounds.holds() {
            held = held.saturating_add(1);
        }
    }
    Ok(held)
}

/// The steps, and at how many of them the premise holds.
type Row<'a> = (&'a [Step], usize);

fn assert_rows(
    rt: &(impl AllocGlobal + Abort),
    topo: &Topology,
    rows: &[Row<'_>],
) -> Result<(), Fail> {
    for (steps, wanted) in rows {
        let held = held(rt.alloc(), topo, steps)?;
        assert_eq!(rt; held, *wanted, "{steps:?}");
    }
    Ok(())
}

fn check(rt: &(impl AllocGlobal + Abort), rows: &[Row<'_>]) -> Result<(), Fail> {
    let topo = topology_of(rt.alloc(), NETWORK)?;
    assert_rows(rt, &topo, rows)
}

#[test]
fn two_consecutive_spoiled_rounds_hold_and_three_break(rt: HostRuntime) -> Result<(), Fail> {
    check(
        &rt,
        &[
            (&[send(0, 1), send(0, 2), pass(11), pass(99)], 4),
            (
                &[
                    send(0, 1),
                    send(0, 2),
                    send(1, 3),
                    pass(11),
                    pass(12),
                    pass(99),
                ],
                4,
            ),
            (&[send(0, 1), send(0, 1), send(0, 1), pass(11)], 4),
            (&[send(0, 1), send(0, 2), send(0, 4), pass(11)], 4),
        ],
    )
}

#[test]
fn a_round_joins_those_on_both_sides(rt: HostRuntime) -> Result<(), Fail> {
    check(
        &rt,
        &[
            (
                &[
                    send(0, 1),
                    send(0, 3),
                    pass(11),
                    send(11, 2),
                    pass(21),
                    pass(22),
                ],
                5,
            ),
            (
                &[
                    send(0, 5),
                    pass(11),
                    send(11, 4),
                    pass(22),
                    send(22, 3),
                    pass(33),
                ],
                5,
            ),
            (
                &[
                    send(0, u64::MAX),
                    send(0, 0),
                    pass(11),
                    send(11, 1),
                    pass(22),
                    send(22, 2),
                    pass(33),
                ],
                6,
            ),
        ],
    )
}

#[test]
fn each_term_has_its_own_rounds(rt: HostRuntime) -> Result<(), Fail> {
    let of = |term, round| Step::Send { at: 0, term, round };
    check(
        &rt,
        &[
            (&[of(1, 1), of(1, 2), of(2, 3), of(2, 4), pass(11)], 5),
            (
                &[of(1, 1), of(2, 2), of(1, 2), of(2, 3), of(2, 4), pass(11)],
                5,
            ),
        ],
    )
}

#[test]
fn the_first_event_past_the_due_judges_a_flight(rt: HostRuntime) -> Result<(), Fail> {
    let three = |next, last| [send(0, 1), send(0, 2), send(0, 3), next, last];
    check(
        &rt,
        &[
            (&three(pass(10), pass(11)), 4),
            (&three(receive(10, 3), pass(11)), 5),
            (&three(receive(11, 3), pass(12)), 5),
            (&three(pass(11), receive(11, 3)), 3),
            (&three(receive(10, 9), pass(11)), 4),
        ],
    )
}

#[test]
fn a_failure_after_the_sending_interrupts_a_flight(rt: HostRuntime) -> Result<(), Fail> {
    let a = Thing::Device(0);
    let b = Thing::Device(1);
    let ab = Thing::Link(0);
    let three = |thing, at, last| [
        send(0, 1),
        send(0, 2),
        send(0, 3),
        Step::Fail { at, thing },
        last,
    ];
    check(
        &rt,
        &[
            (&three(a, 5, pass(11)), 5),
            (&three(b, 5, pass(11)), 5),
            (&three(ab, 5, pass(11)), 5),
            (&three(ab, 11, pass(12)), 5),
            (&three(Thing::Device(2), 5, pass(11)), 4),
            (&three(Thing::Link(1), 5, pass(11)), 4),
            (
                &[
                    pass(0),
                    send(0, 1),
                    Step::Fail { at: 0, thing: ab },
                    send(0, 2),
                    send(0, 3),
                    send(0, 4),
                    pass(11),
                ],
                6,
            ),
        ],
    )
}
