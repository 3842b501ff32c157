//! Fleets of other kinds of node: the fleet takes what they say.

use super::bases::{RB, flight};
use super::networks::{ONE_PLAN, new_fleet};
use super::nodes::{Mute, StillClock, still_message, still_report};
use super::outcomes::{acting, quiet, reports, sends, takes};
use super::playing::{Standing, follower, play, refuse, root, standing_of};
use crate::same::assert_same;
use sd_device::Device;
use sd_fleet::{ApplyFault, Fleet};
use sd_num::clock::Report;
use std::process::Abort;
use std::test::Fail;

/// They send at each tick, and report the same whenever they are asked.
fn tick_and_report(
    rt: &(impl AllocGlobal + Abort),
    fleet: &mut Fleet<StillClock>,
) -> Result<(), Fail> {
    let Report { clock, eps } = still_report();
    let came = takes(flight(1, RB, 5, still_message(1)));
    let lines = [
        ("start 0 0 0 0 500", quiet()),
        ("start 0 1 0 0 800000", quiet()),
        ("start 0 2 0 0 800000", quiet()),
        ("tick 5 0 5", sends(1, 2)),
        ("tick 6 0 6", sends(3, 2)),
        ("tick 7 2 7", sends(5, 1)),
        ("recv 400005 1 400005 1", came),
        ("ask 400006 1 400006", reports(1, clock, eps)),
        ("ask 500006 1 500006", reports(1, clock, eps)),
    ];
    play(rt, fleet, &lines)?;
    let alone = Standing {
        up: true,
        counted: true,
        parent: None,
        acts: false,
    };
    for d in 0..3 {
        assert_same(rt, standing_of(fleet, d), Some(alone));
    }
    Ok(())
}

#[test]
fn clocks_that_stand_still_are_taken_at_their_word(rt: HostRuntime) -> Result<(), Fail> {
    let mut fleet = new_fleet(rt.alloc(), &ONE_PLAN)?;
    let played = tick_and_report(&rt, &mut fleet);
    drop(fleet);
    played
}

/// The root ticks and nothing is sent; the others report and move as devices do.
fn stay_mute(rt: &(impl AllocGlobal + Abort), fleet: &mut Fleet<Mute<Device>>) -> Result<(), Fail> {
    let lines = [
        ("start 0 0 0 0 500", quiet()),
        ("start 0 1 0 0 800000", quiet()),
        ("start 0 2 0 0 800000", quiet()),
        ("tick 90000000 0 90000000", acting()),
        ("tick 110000000 0 110000000", acting()),
    ];
    play(rt, fleet, &lines)?;
    let line = "recv 110700000 1 110700000 1";
    refuse(rt, fleet, line, ApplyFault::UnknownMessage)?;
    let lines = [
        (
            "ask 121000000 1 121000000",
            reports(1, 121_000_000, 825_200),
        ),
        ("tick 1350000000 1 1350000000", quiet()),
    ];
    play(rt, fleet, &lines)?;
    assert_same(rt, standing_of(fleet, 0), root());
    assert_same(rt, standing_of(fleet, 1), follower(2));
    assert_same(rt, standing_of(fleet, 2), follower(0));
    Ok(())
}

#[test]
fn no_message_goes_from_devices_that_never_send(rt: HostRuntime) -> Result<(), Fail> {
    let mut fleet = new_fleet(rt.alloc(), &ONE_PLAN)?;
    let played = stay_mute(&rt, &mut fleet);
    drop(fleet);
    played
}
