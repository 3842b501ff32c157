//! Messages that are received, sent on, and received once alone.

use super::bases::{RX, begin, first_message, flight, relay, settle};
use super::networks::{ODD_SUM, ONE_PLAN, new_fleet};
use super::outcomes::{ends, reports, sends};
use super::playing::{follower, play, refuse, root, standing_of};
use crate::same::assert_same;
use sd_device::Device;
use sd_device::msg::{Flight, TakeFault};
use sd_fleet::{ApplyFault, Fleet, Outcome};
use std::process::Abort;
use std::test::Fail;

/// The base history to its end.
fn reach_all(rt: &(impl AllocGlobal + Abort), fleet: &mut Fleet<Device>) -> Result<(), Fail> {
    settle(rt, fleet)?;
    let lines = [
        (
            "ask 121000000 2 121000000",
            reports(2, 120_700_000, 326_500),
        ),
        ("end 121000000", ends()),
    ];
    play(rt, fleet, &lines)?;
    assert_same(rt, standing_of(fleet, 0), root());
    assert_same(rt, standing_of(fleet, 1), follower(0));
    assert_same(rt, standing_of(fleet, 2), follower(0));
    Ok(())
}

#[test]
fn what_the_root_sends_reaches_all_and_goes_on_once(rt: HostRuntime) -> Result<(), Fail> {
    let mut fleet = new_fleet(rt.alloc(), &ONE_PLAN)?;
    let played = reach_all(&rt, &mut fleet);
    drop(fleet);
    played
}

/// The second message comes once more.
fn receive_twice(rt: &(impl AllocGlobal + Abort), fleet: &mut Fleet<Device>) -> Result<(), Fail> {
    begin(rt, fleet)?;
    let wanted = flight(2, RX, 110_000_000, first_message());
    assert_same(rt, fleet.flight(2), Ok(wanted));
    relay(rt, fleet)?;
    assert_same(rt, fleet.flight(2), Err(TakeFault::Spent));
    refuse(
        rt,
        fleet,
        "recv 111200000 2 111200000 2",
        ApplyFault::SpentMessage,
    )
}

#[test]
fn a_message_is_received_once_and_is_spent_then(rt: HostRuntime) -> Result<(), Fail> {
    let mut fleet = new_fleet(rt.alloc(), &ONE_PLAN)?;
    let played = receive_twice(&rt, &mut fleet);
    drop(fleet);
    played
}

/// A message comes over the link whose delays add up to an odd number.
fn receive_over_odd_sum(
    rt: &(impl AllocGlobal + Abort),
    fleet: &mut Fleet<Device>,
) -> Result<(), Fail> {
    begin(rt, fleet)?;
    let heard = Flight {
        due: 110_600_001,
        last: 111_200_002,
        ..flight(2, RX, 110_000_000, first_message())
    };
    let received = Outcome {
        taken: Some(heard),
        ..sends(3, 1)
    };
    let lines = [
        ("recv 110500000 2 110500000 2", received),
        (
            "ask 120500000 2 120500000",
            reports(2, 120_500_000, 126_501),
        ),
        ("end 120500000", ends()),
    ];
    play(rt, fleet, &lines)
}

#[test]
fn an_odd_sum_of_delays_is_halved_upwards(rt: HostRuntime) -> Result<(), Fail> {
    let mut fleet = new_fleet(rt.alloc(), &ODD_SUM)?;
    let played = receive_over_odd_sum(&rt, &mut fleet);
    drop(fleet);
    played
}
