//! A second plan is brought in.

use super::bases::{BX, RB, RX, XB, emission, flight, relayed, settle};
use super::networks::{ONE_PLAN, OTHER_PLAN, new_fleet};
use super::outcomes::{acting, ends, quiet, reports, sends, takes};
use super::playing::{follower, play, refuse, root, standing_of};
use crate::same::assert_same;
use sd_device::Device;
use sd_device::msg::Message;
use sd_fleet::{ApplyFault, Fleet, Outcome};
use std::process::Abort;
use std::test::Fail;

/// A stage comes where there is one plan.
fn stage_without_plan(
    rt: &(impl AllocGlobal + Abort),
    fleet: &mut Fleet<Device>,
) -> Result<(), Fail> {
    settle(rt, fleet)?;
    refuse(rt, fleet, "stage 112000000", ApplyFault::NoPlanLeft)
}

#[test]
fn nothing_is_staged_where_no_plan_is_left(rt: HostRuntime) -> Result<(), Fail> {
    let mut fleet = new_fleet(rt.alloc(), &ONE_PLAN)?;
    let played = stage_without_plan(&rt, &mut fleet);
    drop(fleet);
    played
}

/// The second message of r is the first of the second plan.
fn second_message() -> Message {
    emission(2, 2, 215_000_000, 44_500)
}

/// The second plan is staged, each device has its duty, and r goes over as its root.
pub(super) fn bring_in(
    rt: &(impl AllocGlobal + Abort),
    fleet: &mut Fleet<Device>,
) -> Result<(), Fail> {
    let goes_over = Outcome {
        activated: Some(0),
        ..acting()
    };
    let lines = [
        ("stage 112000000", quiet()),
        ("give 112000000 0", acting()),
        ("give 112000000 1", quiet()),
        ("give 112000000 2", quiet()),
        ("commit 112000000 0 112000000", goes_over),
    ];
    play(rt, fleet, &lines)
}

/// The root sends the first messages of the second plan, and b enters it with the one that it
/// receives.
pub(super) fn enter_b(
    rt: &(impl AllocGlobal + Abort),
    fleet: &mut Fleet<Device>,
) -> Result<(), Fail> {
    let emits = Outcome {
        acted: true,
        ..sends(5, 2)
    };
    let enters = Outcome {
        taken: Some(flight(5, RB, 215_000_000, second_message())),
        activated: Some(1),
        ..sends(7, 1)
    };
    let lines = [
        ("tick 170000000 0 170000000", acting()),
        ("tick 170000000 1 170000000", quiet()),
        ("tick 170000000 2 170000000", quiet()),
        ("tick 215000000 0 215000000", emits),
        ("recv 215700000 1 215700000 5", enters),
    ];
    play(rt, fleet, &lines)
}

/// b answers by the second plan and x still by the first. Then x enters.
fn enter_x(rt: &(impl AllocGlobal + Abort), fleet: &mut Fleet<Device>) -> Result<(), Fail> {
    let enters = Outcome {
        taken: Some(flight(6, RX, 215_000_000, second_message())),
        activated: Some(2),
        ..sends(8, 1)
    };
    let lines = [
        (
            "ask 215700000 1 215700000",
            reports(1, 215_700_000, 345_500),
        ),
        (
            "ask 215700000 2 215700000",
            reports(2, 215_400_000, 345_440),
        ),
        ("recv 216000000 2 216000000 6", enters),
    ];
    play(rt, fleet, &lines)
}

/// Each device is sealed, and the last seal closes the window.
fn seal_all(rt: &(impl AllocGlobal + Abort), fleet: &mut Fleet<Device>) -> Result<(), Fail> {
    let closes = Outcome {
        closed: true,
        ..quiet()
    };
    let lines = [
        ("seal 216000000 0", acting()),
        ("seal 216000000 1", quiet()),
        ("seal 216000000 2", closes),
    ];
    play(rt, fleet, &lines)
}

/// What b and x sent on is no news.
fn ignore_second(rt: &(impl AllocGlobal + Abort), fleet: &mut Fleet<Device>) -> Result<(), Fail> {
    let message = relayed(second_message());
    let to_x = takes(flight(7, BX, 215_700_000, message));
    let to_b = takes(flight(8, XB, 216_000_000, message));
    let lines = [
        ("recv 216400000 2 216400000 7", to_x),
        ("recv 216700000 1 216700000 8", to_b),
    ];
    play(rt, fleet, &lines)
}

/// The whole renewal.
fn renew(rt: &(impl AllocGlobal + Abort), fleet: &mut Fleet<Device>) -> Result<(), Fail> {
    settle(rt, fleet)?;
    bring_in(rt, fleet)?;
    enter_b(rt, fleet)?;
    enter_x(rt, fleet)?;
    seal_all(rt, fleet)?;
    ignore_second(rt, fleet)?;
    play(rt, fleet, &[("end 216700000", ends())])?;
    assert_same(rt, standing_of(fleet, 0), root());
    assert_same(rt, standing_of(fleet, 1), follower(0));
    assert_same(rt, standing_of(fleet, 2), follower(0));
    Ok(())
}

#[test]
fn the_second_plan_is_entered_by_its_messages_and_closed_by_the_last_seal(
    rt: HostRuntime,
) -> Result<(), Fail> {
    let mut fleet = new_fleet(rt.alloc(), &OTHER_PLAN)?;
    let played = renew(&rt, &mut fleet);
    drop(fleet);
    played
}
