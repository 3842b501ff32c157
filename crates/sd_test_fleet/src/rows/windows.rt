//! Joins, starts and failures while a plan is brought in.

use super::bases::settle;
use super::networks::{SAME_PLAN, new_fleet};
use super::outcomes::{acting, ends, quiet, reports};
use super::playing::{Standing, down, follower, happen, play, refuse, root, standing_of};
use super::renewals::{bring_in, enter_b};
use crate::same::assert_same;
use sd_device::Device;
use sd_fleet::{ApplyFault, Fleet, Outcome};
use std::process::Abort;
use std::test::Fail;

/// The root goes over to the second plan.
fn goes_over() -> Outcome {
    Outcome {
        activated: Some(0),
        ..acting()
    }
}

/// x fails, is mended and joins.
fn join(rt: &(impl AllocGlobal + Abort), fleet: &mut Fleet<Device>) -> Result<(), Fail> {
    settle(rt, fleet)?;
    let lines = [
        ("fail 112000000 device 2", quiet()),
        ("stage 112000000", quiet()),
        ("mend 112000000 device 2", quiet()),
    ];
    play(rt, fleet, &lines)?;
    assert_same(rt, standing_of(fleet, 2), down());
    let lines = [
        ("join 112000000 2 0 112000000 800000", quiet()),
        ("give 112000000 0", acting()),
        ("give 112000000 1", quiet()),
        ("give 112000000 2", quiet()),
        ("commit 112000000 0 112000000", goes_over()),
        ("ask 112000000 2 0", reports(2, 112_000_000, 801_000)),
        ("end 112000000", ends()),
    ];
    play(rt, fleet, &lines)?;
    let joined = Standing {
        up: true,
        counted: true,
        parent: None,
        acts: false,
    };
    assert_same(rt, standing_of(fleet, 2), Some(joined));
    Ok(())
}

#[test]
fn a_mended_device_joins_in_the_window_and_has_no_duty_yet(rt: HostRuntime) -> Result<(), Fail> {
    let mut fleet = new_fleet(rt.alloc(), &SAME_PLAN)?;
    let played = join(&rt, &mut fleet);
    drop(fleet);
    played
}

/// x fails, and the others go on without it.
fn commit_without_x(
    rt: &(impl AllocGlobal + Abort),
    fleet: &mut Fleet<Device>,
) -> Result<(), Fail> {
    settle(rt, fleet)?;
    let lines = [
        ("fail 112000000 device 2", quiet()),
        ("stage 112000000", quiet()),
        ("give 112000000 0", acting()),
        ("give 112000000 1", quiet()),
        ("commit 112000000 0 112000000", goes_over()),
        ("end 112000000", ends()),
    ];
    play(rt, fleet, &lines)
}

#[test]
fn a_commit_is_accepted_where_a_member_is_not_up(rt: HostRuntime) -> Result<(), Fail> {
    let mut fleet = new_fleet(rt.alloc(), &SAME_PLAN)?;
    let played = commit_without_x(&rt, &mut fleet);
    drop(fleet);
    played
}

/// A link fails, is mended and fails.
fn fail_again(rt: &(impl AllocGlobal + Abort), fleet: &mut Fleet<Device>) -> Result<(), Fail> {
    settle(rt, fleet)?;
    let lines = [
        ("fail 112000000 link 0", quiet()),
        ("stage 112000000", quiet()),
        ("mend 112000000 link 0", quiet()),
        ("fail 112000000 link 0", quiet()),
        ("end 112000000", ends()),
    ];
    play(rt, fleet, &lines)
}

#[test]
fn a_link_that_was_mended_may_fail_again_in_the_window(rt: HostRuntime) -> Result<(), Fail> {
    let mut fleet = new_fleet(rt.alloc(), &SAME_PLAN)?;
    let played = fail_again(&rt, &mut fleet);
    drop(fleet);
    played
}

/// x starts in the window.
fn start_late(rt: &(impl AllocGlobal + Abort), fleet: &mut Fleet<Device>) -> Result<(), Fail> {
    let lines = [
        ("start 0 0 0 0 500", quiet()),
        ("start 0 1 0 0 800000", quiet()),
        ("stage 0", quiet()),
        ("start 0 2 0 0 800000", quiet()),
        ("end 0", ends()),
    ];
    play(rt, fleet, &lines)?;
    assert_same(rt, standing_of(fleet, 0), root());
    assert_same(rt, standing_of(fleet, 2), follower(0));
    Ok(())
}

#[test]
fn a_device_may_start_after_a_stage(rt: HostRuntime) -> Result<(), Fail> {
    let mut fleet = new_fleet(rt.alloc(), &SAME_PLAN)?;
    let played = start_late(&rt, &mut fleet);
    drop(fleet);
    played
}

/// After the commit all devices fail.
fn fail_all(rt: &(impl AllocGlobal + Abort), fleet: &mut Fleet<Device>) -> Result<(), Fail> {
    settle(rt, fleet)?;
    bring_in(rt, fleet)?;
    let lines = [
        ("fail 113000000 device 0", acting()),
        ("fail 113000000 device 1", quiet()),
        ("fail 113000000 device 2", quiet()),
    ];
    play(rt, fleet, &lines)?;
    refuse(rt, fleet, "stage 114000000", ApplyFault::WindowOrder)
}

#[test]
fn the_window_stays_open_where_all_members_failed_after_the_commit(
    rt: HostRuntime,
) -> Result<(), Fail> {
    let mut fleet = new_fleet(rt.alloc(), &SAME_PLAN)?;
    let played = fail_all(&rt, &mut fleet);
    drop(fleet);
    played
}

/// All but x have settled, and x fails.
fn fail_unsealed(rt: &(impl AllocGlobal + Abort), fleet: &mut Fleet<Device>) -> Result<(), Fail> {
    settle(rt, fleet)?;
    bring_in(rt, fleet)?;
    enter_b(rt, fleet)?;
    let lines = [
        ("seal 216000000 0", acting()),
        ("seal 216000000 1", quiet()),
    ];
    play(rt, fleet, &lines)?;
    let closes = Outcome {
        closed: true,
        ..quiet()
    };
    happen(rt, fleet, "fail 216000000 device 2", closes)?;
    refuse(rt, fleet, "stage 216000000", ApplyFault::NoPlanLeft)
}

#[test]
fn the_failure_of_the_last_device_that_is_not_sealed_closes_the_window(
    rt: HostRuntime,
) -> Result<(), Fail> {
    let mut fleet = new_fleet(rt.alloc(), &SAME_PLAN)?;
    let played = fail_unsealed(&rt, &mut fleet);
    drop(fleet);
    played
}
