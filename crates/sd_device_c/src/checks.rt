//! What the calls owe, tested.
ghost use Rattle.std.specs.Prelude.{◌≡◌, ◌≤◌, ◌<◌, ◌^◌, ◌↔◌, Some, IsTrue, OnOk, IfOk, IfErr, option_map};
ghost use Rattle.sd_plan.specs.topo.Limits.{IsRates};
ghost use Rattle.sd_plan.specs.declared.Role.TheVariants as role;
ghost use Rattle.sd_device.specs.Calls.{Making, Call, Tick, Receive, Fix, Commit};
ghost use Rattle.sd_device.specs.Words.{counter_of};
ghost use Rattle.sd_device.specs.Rules.{floor_in, ceiling_in};
ghost use Rattle.sd_device.specs.Limits.{IsDuty};
ghost use Rattle.sd_device_c.specs.Plain.{Holds, duty_from};
ghost use Rattle.sd_device_c.specs.Owed.{Owes, OwesToReport, OwesToMake, SetsTo, IsCountable, IsModest, IsSetting};
ghost use Rattle.sd_device_c.specs.Answers.{IsDevice, IsNoDuty};

use crate::faults::Fault;
use crate::limits::{ceiling, floor, is_duty, is_rates, is_sound};
use crate::plain::{PlainDevice, PlainDuty};
use crate::reading;
use sd_device::Registers;
use sd_device::msg::{Message, Stamp};
use sd_num::Rates;
use sd_plan::{Duty, Role};

/// Clocks and uncertainties lie below this, in ps.
const CLOCKS: u128 = 1 << 100;

/// Terms lie below this.
const TERMS: u32 = 1 << 31;

/// Rounds lie below this.
const ROUNDS: u64 = 1 << 62;

/// The registers of the device that the struct holds.
#[inline(always)]
pub(crate) fn held(plain: &PlainDevice) -> Result<Registers, Fault>
    ensures ok { IfOk result (Holds plain.now) }
    ensures err { IfErr result (λ fault. (fault ≡ Fault.NoDevice) × (IsDevice plain.now → ⊥)) }
{
    match reading::registers(plain) {
        Some(registers) if is_sound(&registers) => Ok(registers),
        _ => Err(Fault::NoDevice),
    }
}

/// The duty that the struct holds, within the limits.
#[inline(always)]
pub(crate) fn held_duty(plain: &PlainDuty) -> Result<Duty, Fault>
    ensures ok { IfOk result (λ duty. duty_from plain.now ≡ Some duty) }
    ensures limits { IfOk result IsDuty }
    ensures err { IfErr result (λ fault. (fault ≡ Fault.NoDuty) × IsNoDuty plain.now) }
{
    match reading::duty(plain) {
        Some(duty) if is_duty(&duty) => Ok(duty),
        _ => Err(Fault::NoDuty),
    }
}

/// The counter does not fall.
#[inline(always)]
pub(crate) fn check_counter(registers: &Registers, counter: u64) -> Result<(), Fault>
    ensures ok { OnOk result (floor_in registers.now ≤ counter) }
    ensures err { IfErr result (λ fault. (call : Call) → counter_of call ≡ Some counter
        → Owes fault registers.now call → ⊥) }
    ensures report { IfErr result (λ fault. OwesToReport fault registers.now counter → ⊥) }
{
    if counter < floor(registers) {
        return Err(Fault::CounterFell);
    }
    Ok(())
}

#[inline(always)]
pub(crate) fn check_tick(registers: &Registers, counter: u64) -> Result<(), Fault>
    ensures timely { OnOk result (floor_in registers.now ≤ counter) }
    ensures ceiling { OnOk result (ceiling_in registers.now < 2 ^ 100) }
    ensures stamp { OnOk result (IsCountable registers.now.stamp) }
    ensures err { IfErr result (λ fault. Owes fault registers.now (Tick counter) → ⊥) }
{
    check_counter(registers, counter)?;
    if ceiling(registers) >= CLOCKS {
        return Err(Fault::EstimateTooGreat);
    }
    if is_countable(&registers.stamp) {
        Ok(())
    } else {
        Err(Fault::StampTooGreat)
    }
}

#[inline(always)]
fn is_countable(stamp: &Stamp) -> bool
    ensures { IsTrue result ↔ IsCountable stamp.now }
{
    stamp.term < TERMS && stamp.round < ROUNDS
}

/// A counter that does not fall, and a message within its limits.
#[inline(always)]
pub(crate) fn check_receipt(
    registers: &Registers,
    link: u32,
    message: &Message,
    counter: u64,
) -> Result<(), Fault>
    ensures timely { OnOk result (floor_in registers.now ≤ counter) }
    ensures message { OnOk result (IsModest message.now) }
    ensures err { IfErr result (λ fault.
        Owes fault registers.now (Receive link message.now counter) → ⊥) }
{
    check_counter(registers, counter)?;
    if is_modest(message) {
        Ok(())
    } else {
        Err(Fault::MessageTooGreat)
    }
}

#[inline(always)]
fn is_modest(message: &Message) -> bool
    ensures { IsTrue result ↔ IsModest message.now }
{
    message.clock < CLOCKS
        && message.eps < CLOCKS
        && message.stamp.term < TERMS
        && message.stamp.round < ROUNDS
}

#[inline(always)]
pub(crate) fn check_fix(
    registers: &Registers,
    counter: u64,
    clock: u128,
    eps: u128,
) -> Result<(), Fault>
    ensures timely { OnOk result (floor_in registers.now ≤ counter) }
    ensures setting { OnOk result (IsSetting clock eps) }
    ensures err { IfErr result (λ fault. Owes fault registers.now (Fix counter clock eps) → ⊥) }
{
    check_counter(registers, counter)?;
    if is_setting(clock, eps) {
        Ok(())
    } else {
        Err(Fault::ClockTooGreat)
    }
}

#[inline(always)]
fn is_setting(clock: u128, eps: u128) -> bool
    ensures { IsTrue result ↔ IsSetting clock eps }
{
    clock < CLOCKS && eps < CLOCKS
}

#[inline(always)]
pub(crate) fn check_commit(registers: &Registers, counter: u64) -> Result<(), Fault>
    ensures timely { OnOk result (floor_in registers.now ≤ counter) }
    ensures term { OnOk result (registers.now.stamp.term < 2 ^ 31) }
    ensures root { OnOk result
        (option_map (λ duty. duty.role) registers.now.given ≡ Some role.Root) }
    ensures err { IfErr result (λ fault. Owes fault registers.now (Commit counter) → ⊥) }
{
    check_counter(registers, counter)?;
    if registers.stamp.term >= TERMS {
        return Err(Fault::StampTooGreat);
    }
    if is_given_root(&registers.given) {
        Ok(())
    } else {
        Err(Fault::NotRoot)
    }
}

#[inline(always)]
fn is_given_root(given: &Option<Duty>) -> bool
    ensures { IsTrue result ↔ (option_map (λ duty. duty.role) given.now ≡ Some role.Root) }
{
    matches!(given, Some(duty) if duty.role == Role::Root)
}

/// What a report and a rebase owe.
#[inline(always)]
pub(crate) fn check_report(registers: &Registers, counter: u64) -> Result<(), Fault>
    ensures timely { OnOk result (floor_in registers.now ≤ counter) }
    ensures ceiling { OnOk result (ceiling_in registers.now < 2 ^ 100) }
    ensures err { IfErr result (λ fault. OwesToReport fault registers.now counter → ⊥) }
{
    check_counter(registers, counter)?;
    if ceiling(registers) >= CLOCKS {
        Err(Fault::EstimateTooGreat)
    } else {
        Ok(())
    }
}

#[inline(always)]
pub(crate) fn check_setting(clock: u128, eps: u128) -> Result<(), Fault>
    ensures ok { OnOk result (IsSetting clock eps) }
    ensures err { IfErr result (λ fault. (making : Making) → SetsTo making clock eps
        → OwesToMake fault making → ⊥) }
{
    if is_setting(clock, eps) {
        Ok(())
    } else {
        Err(Fault::ClockTooGreat)
    }
}

#[inline(always)]
pub(crate) fn check_rates(rates: &Rates) -> Result<(), Fault>
    ensures ok { OnOk result (IsRates rates.now) }
    ensures err { IfErr result (λ fault. (fault ≡ Fault.RatesTooGreat) × (IsRates rates.now → ⊥)) }
{
    if is_rates(rates) {
        Ok(())
    } else {
        Err(Fault::RatesTooGreat)
    }
}
