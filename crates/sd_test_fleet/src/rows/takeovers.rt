//! The root fails, and the backup root takes over.

use super::bases::settle;
use super::networks::{ONE_PLAN, new_fleet};
use super::outcomes::{acting, ends, quiet, reports, sends};
use super::playing::{down, follower, happen, root, standing_of};
use crate::same::assert_same;
use sd_device::Device;
use sd_fleet::{Fleet, Outcome};
use std::process::Abort;
use std::test::Fail;

/// The moment of the ticks with this number, from 1.
fn moment(turn: u64) -> u64 {
    turn.saturating_mul(90_000_000).saturating_add(60_000_000)
}

/// Both devices that are left tick, and this comes of that of b.
fn tick_both(
    rt: &(impl AllocGlobal + Abort),
    fleet: &mut Fleet<Device>,
    turn: u64,
    outcome: Outcome,
) -> Result<(), Fail> {
    let at = moment(turn);
    let b = format!(in rt.alloc(); "tick {at} 1 {at}")?;
    let x = format!(in rt.alloc(); "tick {at} 2 {at}")?;
    happen(rt, fleet, b.as_str(), outcome)?;
    happen(rt, fleet, x.as_str(), quiet())
}

/// The devices that are left tick, from one turn up to another, and nothing comes of it.
fn wait(
    rt: &(impl AllocGlobal + Abort),
    fleet: &mut Fleet<Device>,
    from: u64,
    to: u64,
) -> Result<(), Fail> {
    for turn in from..to {
        tick_both(rt, fleet, turn, quiet())?;
    }
    Ok(())
}

/// The root fails, and the devices that are left wait.
fn take_over(rt: &(impl AllocGlobal + Abort), fleet: &mut Fleet<Device>) -> Result<(), Fail> {
    settle(rt, fleet)?;
    happen(rt, fleet, "fail 112000000 device 0", acting())?;
    assert_same(rt, standing_of(fleet, 0), down());
    wait(rt, fleet, 1, 16)?;
    assert_same(rt, standing_of(fleet, 1), follower(0));
    tick_both(rt, fleet, 16, quiet())?;
    assert_same(rt, standing_of(fleet, 1), follower(2));
    wait(rt, fleet, 17, 31)?;
    assert_same(rt, standing_of(fleet, 1), follower(2));
    tick_both(rt, fleet, 31, sends(5, 1))?;
    assert_same(rt, standing_of(fleet, 1), root());
    let asked = Outcome {
        acted: true,
        ..reports(1, 2_850_000_000, 872_360)
    };
    happen(rt, fleet, "ask 2850000000 1 2850000000", asked)?;
    happen(rt, fleet, "end 2850000000", ends())
}

#[test]
fn the_backup_root_moves_and_then_takes_over(rt: HostRuntime) -> Result<(), Fail> {
    let mut fleet = new_fleet(rt.alloc(), &ONE_PLAN)?;
    let played = take_over(&rt, &mut fleet);
    drop(fleet);
    played
}
