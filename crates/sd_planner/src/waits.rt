//! The least waits that meet the timing rules.
ghost use Rattle.std.specs.Prelude.{◌≡◌, ℕ, ◌≤◌, ◌<◌, ◌+◌, ◌*◌, ◌^◌, max};
ghost use Rattle.sd_num.specs.Numbers.{low};
ghost use Rattle.sd_plan.specs.topo.Network.{greatest_up};
ghost use Rattle.sd_plan.specs.topo.Limits.{IsRates};
ghost use Rattle.sd_plan.specs.topo.Topologies.{network};
ghost use Rattle.sd_checker.specs.check_root.Timing.{silence};
ghost use Rattle.sd_planner.specs.Greedy.{IsLeastWait};

use sd_checker::check_root::{greatest_up, silence_and_tick};
use sd_num::Rates;
use sd_plan::topo::Topology;

/// A million parts.
const MILLION: u128 = 1_000_000;

/// The waits of a plan: counter times in ps.
#[derive(Clone, Copy)]
pub(crate) struct Waits {
    pub(crate) first: u64,
    pub(crate) second: u64,
    pub(crate) ordinary: u64,
}

/// The least counter time in ps that surely takes a counter with these rates that long.
fn wait_at(rates: Rates, long: u128) -> u64
    requires rates { IsRates rates }
    requires some { 1 ≤ long }
    requires bound { long ≤ 2 ^ 55 }
    ensures enough { (x : ℕ) → result ≤ x → long ≤ low rates x }
    ensures least { (x : ℕ) → long ≤ low rates x → result ≤ x }
    ensures bound { result ≤ 2 * (long + 2 ^ 40) }
{
    let left = MILLION - u128::from(rates.ppm);
    let needed = (long + u128::from(rates.grain)) * MILLION;
    ((needed + (left - 1)) / left) as u64
}

/// The greater of two waits.
fn greater(a: u64, b: u64) -> u64
    ensures { result ≡ max a b }
{
    if a < b { b } else { a }
}

/// The least counter time in ps that surely takes the counter of each device that long.
fn least_wait(topo: &Topology, long: u128) -> u64
    requires some { 1 ≤ long }
    requires bound { long ≤ 2 ^ 55 }
    ensures is { IsLeastWait (network topo.now) long result }
    ensures bound { result ≤ 2 * (long + 2 ^ 40) }
{
    let mut least = 0;
    for d in 0..topo.devices() {
        least = greater(least, wait_at(topo.rates(d), long));
    }
    least
}

/// The least waits that meet the second, third and fourth timing rule.
pub(crate) fn least_waits(topo: &Topology) -> Waits
    ensures first { IsLeastWait (network topo.now)
        (2 * (silence (network topo.now) + (network topo.now).params.tick)) result.first }
    ensures second { IsLeastWait (network topo.now)
        (2 * (silence (network topo.now) + (network topo.now).params.tick)) result.second }
    ensures ordinary { IsLeastWait (network topo.now) (greatest_up (network topo.now) result.first
        + greatest_up (network topo.now) result.second
        + 6 * (silence (network topo.now) + (network topo.now).params.tick)) result.ordinary }
    ensures bounds { (result.first ≤ 2 ^ 60) × (result.second ≤ 2 ^ 60)
        × (result.ordinary ≤ 2 ^ 60) }
{
    let silent = silence_and_tick(topo);
    let first = least_wait(topo, 2 * silent);
    let moved = greatest_up(topo, first);
    let ordinary = least_wait(topo, moved + moved + 6 * silent);
    Waits {
        first,
        second: first,
        ordinary,
    }
}
