//! Whether what a struct says is within the limits.
ghost use Rattle.std.specs.Prelude.{◌≡◌, ◌↔◌, IsTrue, IfSome};
ghost use Rattle.sd_plan.specs.topo.Limits.{IsRates};
ghost use Rattle.sd_device.specs.Rules.{floor_in, ceiling_in};
ghost use Rattle.sd_device.specs.Limits.{IsDuty, IsEdge, IsSound};

use sd_device::{Mode, Registers};
use sd_num::Rates;
use sd_plan::{Duty, Edge};

const MOST_PPM: u32 = 100_000;

/// A second, in ps.
pub(crate) const SECOND: u64 = 1_000_000_000_000;

#[inline(always)]
pub(crate) fn is_rates(rates: &Rates) -> bool
    ensures { IsTrue result ↔ IsRates rates.now }
{
    rates.ppm <= MOST_PPM && rates.grain <= SECOND
}

#[inline(always)]
fn is_edge(edge: &Option<Edge>) -> bool
    ensures { IsTrue result ↔ IfSome edge.now IsEdge }
{
    match edge {
        Some(edge) => edge.bounds.mid <= SECOND && edge.bounds.half <= SECOND,
        None => true,
    }
}

#[inline(always)]
pub(crate) fn is_duty(duty: &Duty) -> bool
    ensures { IsTrue result ↔ IsDuty duty.now }
{
    duty.epoch >= 1 && is_rates(&duty.rates) && is_edge(&duty.primary) && is_edge(&duty.backup)
}

#[inline(always)]
fn is_held_duty(duty: &Option<Duty>) -> bool
    ensures { IsTrue result ↔ IfSome duty.now IsDuty }
{
    match duty {
        Some(duty) => is_duty(duty),
        None => true,
    }
}

#[inline(always)]
pub(crate) fn is_sound(registers: &Registers) -> bool
    ensures { IsTrue result ↔ IsSound registers.now }
{
    is_held_duty(&registers.duty)
        && is_held_duty(&registers.given)
        && is_rates(&registers.rates)
        && (registers.duty.is_some() || registers.mode == Mode::Idle)
}

/// The greatest of the counters that are kept.
#[inline(always)]
pub(crate) fn floor(registers: &Registers) -> u64
    ensures { result ≡ floor_in registers.now }
{
    registers
        .last
        .max(registers.sent)
        .max(registers.estimate.at)
}

/// The greater of the kept clock and its uncertainty.
#[inline(always)]
pub(crate) fn ceiling(registers: &Registers) -> u128
    ensures { result ≡ ceiling_in registers.now }
{
    registers.estimate.clock.max(registers.estimate.base)
}
