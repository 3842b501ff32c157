//! The calls that make a device.
ghost use Rattle.std.specs.Prelude.{◌≡◌, ◌≢◌, Some, OnOk, IfOk, IfErr};
ghost use Rattle.sd_plan.specs.declared.Duty.{Duty};
ghost use Rattle.sd_device.specs.Calls.{Started, Joined};
ghost use Rattle.sd_device_c.specs.Plain.{wide_from, duty_from, rates_from};
ghost use Rattle.sd_device_c.specs.Answers.{IsAnswerFor, MayStart, HasStartFault, MayJoin, HasJoinFault, IsMade, IsDevice, IsNoDevice};

use crate::checks::{check_rates, check_setting, held, held_duty};
use crate::faults::{DONE, Fault};
use crate::plain::{PlainDevice, PlainDuty, PlainRates, PlainWide};
use crate::reading;
use crate::writing::plain_device;
use sd_device::Device;

/// Whether the struct holds a device that was made.
#[unsafe(no_mangle)]
pub extern "C" fn sundial_made(device: &PlainDevice) -> u32
    ensures answer { IsAnswerFor result (IsDevice device.now) (IsNoDevice device.now) }
{
    match held(device) {
        Ok(_) => DONE,
        Err(fault) => fault.code(),
    }
}

/// A device of a plan that was never part of one before. Its counter, its clock and the uncertainty
/// of that are in ps.
#[unsafe(no_mangle)]
pub extern "C" fn sundial_start(
    device: &mut PlainDevice,
    duty: &PlainDuty,
    counter: u64,
    clock: u64,
    eps: u64,
) -> u32
    ensures answer { IsAnswerFor result (MayStart duty.now counter clock eps)
        (HasStartFault duty.now counter clock eps) }
    ensures same { result ≢ 0 → device.new ≡ device.old }
    ensures made { result ≡ 0 → (first : Duty) → duty_from duty.now ≡ Some first
        → IsMade (Started first counter clock eps) device.new }
{
    match start(duty, counter, u128::from(clock), u128::from(eps)) {
        Ok(made) => {
            *device = made;
            DONE
        }
        Err(fault) => fault.code(),
    }
}

/// The same, with a clock and an uncertainty of 128 bits.
#[unsafe(no_mangle)]
pub extern "C" fn sundial_start_wide(
    device: &mut PlainDevice,
    duty: &PlainDuty,
    counter: u64,
    clock: &PlainWide,
    eps: &PlainWide,
) -> u32
    ensures answer { let clock = wide_from clock.now in let eps = wide_from eps.now in
        IsAnswerFor result (MayStart duty.now counter clock eps)
        (HasStartFault duty.now counter clock eps) }
    ensures same { result ≢ 0 → device.new ≡ device.old }
    ensures made { result ≡ 0 → (first : Duty) → duty_from duty.now ≡ Some first
        → IsMade (Started first counter (wide_from clock.now) (wide_from eps.now)) device.new }
{
    match start(duty, counter, reading::wide(*clock), reading::wide(*eps)) {
        Ok(made) => {
            *device = made;
            DONE
        }
        Err(fault) => fault.code(),
    }
}

#[inline(always)]
fn start(duty: &PlainDuty, counter: u64, clock: u128, eps: u128) -> Result<PlainDevice, Fault>
    ensures may { OnOk result (MayStart duty.now counter clock eps) }
    ensures ok { IfOk result (λ made. (first : Duty) → duty_from duty.now ≡ Some first
        → IsMade (Started first counter clock eps) made) }
    ensures err { IfErr result (HasStartFault duty.now counter clock eps) }
{
    let first = held_duty(duty)?;
    check_setting(clock, eps)?;
    let node = Device::started(first, counter, clock, eps);
    Ok(plain_device(&node.registers()))
}

/// A device that joins while a new plan is brought in: it has no duty yet. Its counter, its clock
/// and the uncertainty of that are in ps.
#[unsafe(no_mangle)]
pub extern "C" fn sundial_join(
    device: &mut PlainDevice,
    rates: &PlainRates,
    counter: u64,
    clock: u64,
    eps: u64,
) -> u32
    ensures answer { IsAnswerFor result (MayJoin rates.now counter clock eps)
        (HasJoinFault rates.now counter clock eps) }
    ensures same { result ≢ 0 → device.new ≡ device.old }
    ensures made { result ≡ 0
        → IsMade (Joined (rates_from rates.now) counter clock eps) device.new }
{
    match join(rates, counter, u128::from(clock), u128::from(eps)) {
        Ok(made) => {
            *device = made;
            DONE
        }
        Err(fault) => fault.code(),
    }
}

/// The same, with a clock and an uncertainty of 128 bits.
#[unsafe(no_mangle)]
pub extern "C" fn sundial_join_wide(
    device: &mut PlainDevice,
    rates: &PlainRates,
    counter: u64,
    clock: &PlainWide,
    eps: &PlainWide,
) -> u32
    ensures answer { let clock = wide_from clock.now in let eps = wide_from eps.now in
        IsAnswerFor result (MayJoin rates.now counter clock eps)
        (HasJoinFault rates.now counter clock eps) }
    ensures same { result ≢ 0 → device.new ≡ device.old }
    ensures made { let clock = wide_from clock.now in let eps = wide_from eps.now in
        result ≡ 0 → IsMade (Joined (rates_from rates.now) counter clock eps) device.new }
{
    match join(rates, counter, reading::wide(*clock), reading::wide(*eps)) {
        Ok(made) => {
            *device = made;
            DONE
        }
        Err(fault) => fault.code(),
    }
}

#[inline(always)]
fn join(rates: &PlainRates, counter: u64, clock: u128, eps: u128) -> Result<PlainDevice, Fault>
    ensures may { OnOk result (MayJoin rates.now counter clock eps) }
    ensures ok { IfOk result (IsMade (Joined (rates_from rates.now) counter clock eps)) }
    ensures err { IfErr result (HasJoinFault rates.now counter clock eps) }
{
    let rates = reading::rates(*rates);
    check_rates(&rates)?;
    check_setting(clock, eps)?;
    let node = Device::joined(rates, counter, clock, eps);
    Ok(plain_device(&node.registers()))
}
