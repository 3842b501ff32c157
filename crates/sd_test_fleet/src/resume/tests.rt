//! The worked triangle, cut when each message of the first round was received.

use sd_device::Device;
use sd_fleet::Fleet;
use sd_num::clock::Report;
use sd_plan::topo::Thing;
use sd_resume::{Difference, Register, Shift, agrees};
use sd_sched::read_line;
use sd_test_examples::{TRIANGLE, TRIANGLE_PLAN};
use sd_test_fleet_kit::examples::{Example, fleet_of};
use std::process::Abort;
use std::test::Fail;

/// Its links rb, rx and bx (0 to 2) join the devices r, b and x (0 to 2). There is one plan.
const ONE_PLAN: Example = Example {
    topology: TRIANGLE,
    plans: &[TRIANGLE_PLAN],
};

/// All devices start, the root sends a round, and all messages but the last are received.
const WHOLE: [&str; 10] = [
    "start 0 0 0 0 500",
    "start 0 1 0 0 800000",
    "start 0 2 0 0 800000",
    "tick 90000000 0 90000000",
    "tick 90000000 1 90000000",
    "tick 90000000 2 90000000",
    "tick 110000000 0 110000000",
    "recv 110700000 1 110700000 1",
    "recv 111000000 2 111000000 2",
    "recv 111400000 2 111400000 3",
];

/// The last message is received.
const RECEIVED: [&str; 1] = ["recv 111700000 1 111700000 4"];

/// The root starts where it sent, and each other device where it accepted a message.
const OPENING: [&str; 4] = [
    "start 110000000 0 110000000 110000000 22500",
    "start 110700000 1 110700000 110700000 323500",
    "start 111000000 2 111000000 110700000 323500",
    "tick 111400000 2 111400000",
];

/// The device that received the last message ticks then.
const TICKED: [&str; 1] = ["tick 111700000 1 111700000"];

/// Four messages were sent, and round 1 is round 0 of the opening.
const SHIFT: Shift = Shift {
    plans: 0,
    messages: 4,
    term: 0,
    round: 1,
};

/// The lines happen to the fleet, in their order.
fn play(
    rt: &(impl AllocGlobal + Abort),
    fleet: &mut Fleet<Device>,
    lines: &[&str],
) -> Result<(), Fail> {
    for line in lines {
        let event = read_line(line.as_bytes())?;
        fleet.apply(rt.alloc(), &event)?;
    }
    Ok(())
}

/// A fleet after lines, and then some more.
fn fleet_after(
    rt: &(impl AllocGlobal + Abort),
    lines: &[&str],
    more: &[&str],
) -> Result<Fleet<Device>, Fail> {
    let mut fleet = fleet_of(rt.alloc(), &ONE_PLAN)?;
    play(rt, &mut fleet, lines)?;
    play(rt, &mut fleet, more)?;
    Ok(fleet)
}

/// What the whole history and the opening differ in, where these lines end them.
fn compare(
    rt: &(impl AllocGlobal + Abort),
    whole: &[&str],
    opening: &[&str],
    shift: &Shift,
) -> Result<Option<Difference>, Fail> {
    let first = fleet_after(rt, &WHOLE, whole)?;
    let second = fleet_after(rt, &OPENING, opening)?;
    Ok(agrees(&first, &second, shift).err())
}

/// The same of a right opening that goes on with one line.
fn compare_after(rt: &(impl AllocGlobal + Abort), line: &str) -> Result<Option<Difference>, Fail> {
    compare(rt, &RECEIVED, &[TICKED[0], line], &SHIFT)
}

/// What device 1 reports after lines, once it received the next round under a number.
fn report_after(
    rt: &(impl AllocGlobal + Abort),
    lines: &[&str],
    more: &[&str],
    receipt: &str,
) -> Result<Option<(u32, Report)>, Fail> {
    let mut fleet = fleet_after(rt, lines, more)?;
    play(rt, &mut fleet, &["tick 210000000 0 210000000", receipt])?;
    let ask = read_line(b"ask 211000000 1 211000000")?;
    let outcome = fleet.apply(rt.alloc(), &ask)?;
    Ok(outcome.report)
}

#[test]
fn a_right_opening_agrees(rt: HostRuntime) -> Result<(), Fail> {
    assert_eq!(rt; compare(&rt, &RECEIVED, &TICKED, &SHIFT)?, None);
    Ok(())
}

/// Both go on, with messages whose numbers differ by four.
#[test]
fn both_go_on_alike(rt: HostRuntime) -> Result<(), Fail> {
    let one = report_after(&rt, &WHOLE, &RECEIVED, "recv 210700000 1 210700000 5")?;
    let other = report_after(&rt, &OPENING, &TICKED, "recv 210700000 1 210700000 1")?;
    assert!(rt; one.is_some());
    assert_eq!(rt; one, other);
    Ok(())
}

#[test]
fn numbers_have_to_fit(rt: HostRuntime) -> Result<(), Fail> {
    let stamp = Difference::Register {
        device: 0,
        register: Register::Stamp,
    };
    let rows = [
        (Shift { plans: 1, ..SHIFT }, Difference::Plan),
        (
            Shift {
                messages: 5,
                ..SHIFT
            },
            Difference::Messages,
        ),
        (
            Shift {
                messages: 3,
                ..SHIFT
            },
            Difference::Messages,
        ),
        (Shift { round: 0, ..SHIFT }, stamp),
    ];
    for (shift, difference) in rows {
        assert_eq!(rt; compare(&rt, &RECEIVED, &TICKED, &shift)?, Some(difference));
    }
    Ok(())
}

#[test]
fn each_event_of_an_opening_counts(rt: HostRuntime) -> Result<(), Fail> {
    assert_eq!(rt;
        compare(&rt, &RECEIVED, &[], &SHIFT)?,
        Some(Difference::Time)
    );
    let estimate = Difference::Register {
        device: 1,
        register: Register::Estimate,
    };
    let rows = [
        ("end 111700000", Difference::End),
        (
            "fail 111700000 link 2",
            Difference::Failed {
                thing: Thing::Link(2),
            },
        ),
        ("fail 111700000 device 2", Difference::Up { device: 2 }),
        (
            "ask 111700000 2 111700000",
            Difference::Reading { device: 2 },
        ),
        ("fix 111700000 1 111700000 111700000 500", estimate),
    ];
    for (line, difference) in rows {
        assert_eq!(rt; compare_after(&rt, line)?, Some(difference), "{line}");
    }
    Ok(())
}

/// What failed is told by the opening too.
#[test]
fn what_failed_has_to_be_told(rt: HostRuntime) -> Result<(), Fail> {
    let whole = [RECEIVED[0], "fail 111700000 link 2"];
    let link = Difference::Failed {
        thing: Thing::Link(2),
    };
    assert_eq!(rt; compare(&rt, &whole, &TICKED, &SHIFT)?, Some(link));
    let told = [TICKED[0], "fail 111700000 link 2"];
    assert_eq!(rt; compare(&rt, &whole, &told, &SHIFT)?, None);
    Ok(())
}

/// The message of x to b is not received: then it is lost.
#[test]
fn no_message_may_be_on_its_way(rt: HostRuntime) -> Result<(), Fail> {
    let fourth = Difference::OnItsWay { number: 4 };
    assert_eq!(rt; compare(&rt, &TICKED, &TICKED, &SHIFT)?, Some(fourth));
    let lost = [TICKED[0], "lose 111700000 4"];
    assert_eq!(rt; compare(&rt, &lost, &TICKED, &SHIFT)?, None);
    Ok(())
}
