//! How an uncertainty grows, what a counter shows, and the correction of a delay.
ghost use Rattle.std.specs.Prelude.{◌≡◌, ◌≤◌};
ghost use Rattle.sd_num.specs.Numbers.{grow as growth, low as lowest, up as highest, correction};

use crate::{Bounds, Rates};

/// A million parts.
const MILLION: u128 = 1_000_000;

/// By how many picoseconds an uncertainty grows while a counter advances by `e`: `ppm` parts per
/// million of it, rounded up.
pub fn grow(ppm: u32, e: u64) -> u64
    requires { ppm ≤ 1000000 }
    ensures { result ≡ growth ppm e }
{
    let parts = u128::from(ppm) * u128::from(e);
    ((parts + (MILLION - 1)) / MILLION) as u64
}

/// The least reference time that passes while a counter advances by `x`; 0 where the rates leave
/// none.
pub fn low(rates: Rates, x: u64) -> u64
    requires { rates.ppm ≤ 1000000 }
    ensures { result ≡ lowest rates x }
{
    (x - grow(rates.ppm, x)).saturating_sub(rates.grain)
}

/// The greatest reference time that passes while a counter advances by `x`.
pub fn up(rates: Rates, x: u64) -> u128
    requires { rates.ppm ≤ 1000000 }
    ensures { result ≡ highest rates x }
{
    u128::from(x) + u128::from(grow(rates.ppm, x)) + u128::from(rates.grain)
}

/// The correction of a delay from `min` to `max` picoseconds.
pub fn bounds_of(min: u64, max: u64) -> Bounds
    requires { min ≤ max }
    ensures { result ≡ correction min max }
{
    let mid = min + (max - min) / 2;
    Bounds {
        mid,
        half: max - mid,
    }
}
