//! How old an estimate may be once a stretch of the reference has passed, and by how much it has
//! grown by then.
ghost use Rattle.std.specs.Prelude.{◌≡◌, ◌≤◌, ◌+◌, ◌*◌, ◌^◌};
ghost use Rattle.sd_drill.specs.ages.Ages as ages;
ghost use Rattle.sd_drill.specs.ages.Ages.{IsOldest};
ghost use Rattle.sd_plan.specs.topo.Limits.{IsRates};

use sd_num::Rates;

/// A million parts.
const MILLION: u128 = 1_000_000;

/// The most by which a counter with these rates may advance while `s` ps of the reference pass: the
/// greatest `x` whose least reference time is at most `s`. That time never falls as `x` grows, and
/// `x` is found by one division.
#[tactic(auto, using(crate::proofs::ages::Division::oldest_bound))]
pub fn oldest(rates: Rates, s: u128) -> u128
    requires rates { IsRates rates }
    requires bound { s ≤ 2 ^ 96 }
    ensures is { IsOldest rates s result }
    ensures bound { result ≤ 2 * s + 2 ^ 42 }
{
    let parts = MILLION * (s + u128::from(rates.grain) + 1) - 1;
    parts / (MILLION - u128::from(rates.ppm))
}

/// By how many picoseconds an estimate grows while it is held for `x` ps of its counter.
#[tactic(auto, using(crate::proofs::ages::Division::ageing_bound))]
pub fn ageing(rates: Rates, x: u128) -> u128
    requires rates { IsRates rates }
    requires bound { x ≤ 2 ^ 100 }
    ensures is { result ≡ ages.ageing rates x }
    ensures bound { result ≤ x + 2 ^ 41 }
{
    let parts = u128::from(rates.ppm) * x;
    u128::from(rates.grain) + (parts + (MILLION - 1)) / MILLION
}
