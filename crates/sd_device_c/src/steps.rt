//! The calls that change a device.
ghost use Rattle.std.specs.Prelude.{◌≡◌, ◌≢◌, Some, OnOk, IfOk, IfErr};
ghost use Rattle.sd_plan.specs.declared.Duty.{Duty};
ghost use Rattle.sd_device.specs.declared.Effect.TheVariants.{Quiet};
ghost use Rattle.sd_device.specs.Calls.{Tick, Receive, Fix, Give, Commit, Seal};
ghost use Rattle.sd_device_c.specs.Plain.{wide_from, message_from, effect_from, duty_from};
ghost use Rattle.sd_device_c.specs.Answers.{IsAnswerFor, MayCall, HasFault, IsCalled, MayGive, HasGiveFault, IsDevice};

use crate::checks::{check_commit, check_fix, check_receipt, check_tick, held, held_duty};
use crate::faults::{DONE, Fault};
use crate::plain::{PlainDevice, PlainDuty, PlainEffect, PlainMessage, PlainWide};
use crate::reading;
use crate::writing::{plain_device, plain_effect};
use sd_device::msg::Message;
use sd_device::{Device, Node};

/// A tick of the device's own timer, while its counter shows this many ps.
#[unsafe(no_mangle)]
pub extern "C" fn sundial_tick(
    device: &mut PlainDevice,
    counter: u64,
    effect: &mut PlainEffect,
) -> u32
    ensures answer { IsAnswerFor result (MayCall device.old (Tick counter))
        (HasFault device.old (Tick counter)) }
    ensures same { result ≢ 0 → (device.new ≡ device.old) × (effect.new ≡ effect.old) }
    ensures called { result ≡ 0
        → IsCalled device.old (Tick counter) device.new (effect_from effect.new) }
{
    match tick(device, counter) {
        Ok((after, sent)) => {
            *device = after;
            *effect = sent;
            DONE
        }
        Err(fault) => fault.code(),
    }
}

#[inline(always)]
fn tick(device: &PlainDevice, counter: u64) -> Result<(PlainDevice, PlainEffect), Fault>
    ensures may { OnOk result (MayCall device.now (Tick counter)) }
    ensures ok { IfOk result (λ after.
        IsCalled device.now (Tick counter) after.0 (effect_from after.1)) }
    ensures err { IfErr result (HasFault device.now (Tick counter)) }
{
    let registers = held(device)?;
    check_tick(&registers, counter)?;
    let mut node = Device::with_registers(registers);
    let effect = node.tick(counter);
    Ok((plain_device(&node.registers()), plain_effect(effect)))
}

/// A message that came over this link while the counter showed this many ps.
#[unsafe(no_mangle)]
pub extern "C" fn sundial_receive(
    device: &mut PlainDevice,
    link: u32,
    message: &PlainMessage,
    counter: u64,
    effect: &mut PlainEffect,
) -> u32
    ensures answer { let call = Receive link (message_from message.now) counter in
        IsAnswerFor result (MayCall device.old call) (HasFault device.old call) }
    ensures same { result ≢ 0 → (device.new ≡ device.old) × (effect.new ≡ effect.old) }
    ensures called { let call = Receive link (message_from message.now) counter in
        result ≡ 0 → IsCalled device.old call device.new (effect_from effect.new) }
{
    match receive(device, link, &reading::message(*message), counter) {
        Ok((after, sent)) => {
            *device = after;
            *effect = sent;
            DONE
        }
        Err(fault) => fault.code(),
    }
}

#[inline(always)]
fn receive(
    device: &PlainDevice,
    link: u32,
    message: &Message,
    counter: u64,
) -> Result<(PlainDevice, PlainEffect), Fault>
    ensures may { OnOk result (MayCall device.now (Receive link message.now counter)) }
    ensures ok { IfOk result (λ after.
        IsCalled device.now (Receive link message.now counter) after.0 (effect_from after.1)) }
    ensures err { IfErr result (HasFault device.now (Receive link message.now counter)) }
{
    let registers = held(device)?;
    check_receipt(&registers, link, message, counter)?;
    let mut node = Device::with_registers(registers);
    let effect = node.receive(link, message, counter);
    Ok((plain_device(&node.registers()), plain_effect(effect)))
}

/// The clock is set from outside to this many ps, with this uncertainty in ps, while the counter
/// shows this many.
#[unsafe(no_mangle)]
pub extern "C" fn sundial_fix(device: &mut PlainDevice, counter: u64, clock: u64, eps: u64) -> u32
    ensures answer { IsAnswerFor result (MayCall device.old (Fix counter clock eps))
        (HasFault device.old (Fix counter clock eps)) }
    ensures same { result ≢ 0 → device.new ≡ device.old }
    ensures called { result ≡ 0 → IsCalled device.old (Fix counter clock eps) device.new Quiet }
{
    match fix(device, counter, u128::from(clock), u128::from(eps)) {
        Ok(after) => {
            *device = after;
            DONE
        }
        Err(fault) => fault.code(),
    }
}

/// The same, with a clock and an uncertainty of 128 bits.
#[unsafe(no_mangle)]
pub extern "C" fn sundial_fix_wide(
    device: &mut PlainDevice,
    counter: u64,
    clock: &PlainWide,
    eps: &PlainWide,
) -> u32
    ensures answer { let call = Fix counter (wide_from clock.now) (wide_from eps.now) in
        IsAnswerFor result (MayCall device.old call) (HasFault device.old call) }
    ensures same { result ≢ 0 → device.new ≡ device.old }
    ensures called { let call = Fix counter (wide_from clock.now) (wide_from eps.now) in
        result ≡ 0 → IsCalled device.old call device.new Quiet }
{
    match fix(device, counter, reading::wide(*clock), reading::wide(*eps)) {
        Ok(after) => {
            *device = after;
            DONE
        }
        Err(fault) => fault.code(),
    }
}

#[inline(always)]
fn fix(device: &PlainDevice, counter: u64, clock: u128, eps: u128) -> Result<PlainDevice, Fault>
    ensures may { OnOk result (MayCall device.now (Fix counter clock eps)) }
    ensures ok { IfOk result (λ after. IsCalled device.now (Fix counter clock eps) after Quiet) }
    ensures err { IfErr result (HasFault device.now (Fix counter clock eps)) }
{
    let registers = held(device)?;
    check_fix(&registers, counter, clock, eps)?;
    let mut node = Device::with_registers(registers);
    node.fix(counter, clock, eps);
    Ok(plain_device(&node.registers()))
}

/// A duty of the next plan, to be taken up by a commit or by a message of that plan.
#[unsafe(no_mangle)]
pub extern "C" fn sundial_give(device: &mut PlainDevice, duty: &PlainDuty) -> u32
    ensures answer { IsAnswerFor result (MayGive device.old duty.now)
        (HasGiveFault device.old duty.now) }
    ensures same { result ≢ 0 → device.new ≡ device.old }
    ensures called { result ≡ 0 → (given : Duty) → duty_from duty.now ≡ Some given
        → IsCalled device.old (Give given) device.new Quiet }
{
    match give(device, duty) {
        Ok(after) => {
            *device = after;
            DONE
        }
        Err(fault) => fault.code(),
    }
}

#[inline(always)]
fn give(device: &PlainDevice, duty: &PlainDuty) -> Result<PlainDevice, Fault>
    ensures may { OnOk result (MayGive device.now duty.now) }
    ensures ok { IfOk result (λ after. (given : Duty) → duty_from duty.now ≡ Some given
        → IsCalled device.now (Give given) after Quiet) }
    ensures err { IfErr result (HasGiveFault device.now duty.now) }
{
    let registers = held(device)?;
    let given = held_duty(duty)?;
    let mut node = Device::with_registers(registers);
    node.on_give(given);
    Ok(plain_device(&node.registers()))
}

/// It takes up the duty that was given to it, as the root of the next plan, while its counter shows
/// this many ps.
#[unsafe(no_mangle)]
pub extern "C" fn sundial_commit(device: &mut PlainDevice, counter: u64) -> u32
    ensures answer { IsAnswerFor result (MayCall device.old (Commit counter))
        (HasFault device.old (Commit counter)) }
    ensures same { result ≢ 0 → device.new ≡ device.old }
    ensures called { result ≡ 0 → IsCalled device.old (Commit counter) device.new Quiet }
{
    match commit(device, counter) {
        Ok(after) => {
            *device = after;
            DONE
        }
        Err(fault) => fault.code(),
    }
}

#[inline(always)]
fn commit(device: &PlainDevice, counter: u64) -> Result<PlainDevice, Fault>
    ensures may { OnOk result (MayCall device.now (Commit counter)) }
    ensures ok { IfOk result (λ after. IsCalled device.now (Commit counter) after Quiet) }
    ensures err { IfErr result (HasFault device.now (Commit counter)) }
{
    let registers = held(device)?;
    check_commit(&registers, counter)?;
    let mut node = Device::with_registers(registers);
    node.commit(counter);
    Ok(plain_device(&node.registers()))
}

/// From now on it may move to its backup parent.
#[unsafe(no_mangle)]
pub extern "C" fn sundial_seal(device: &mut PlainDevice) -> u32
    ensures answer { IsAnswerFor result (MayCall device.old Seal) (HasFault device.old Seal) }
    ensures same { result ≢ 0 → device.new ≡ device.old }
    ensures called { result ≡ 0 → IsCalled device.old Seal device.new Quiet }
{
    match seal(device) {
        Ok(after) => {
            *device = after;
            DONE
        }
        Err(fault) => fault.code(),
    }
}

#[inline(always)]
fn seal(device: &PlainDevice) -> Result<PlainDevice, Fault>
    ensures may { OnOk result (MayCall device.now Seal) }
    ensures ok { IfOk result (λ after. IsCalled device.now Seal after Quiet) }
    ensures err { IfErr result (HasFault device.now Seal) }
{
    let registers = held(device)?;
    let mut node = Device::with_registers(registers);
    node.on_seal();
    Ok(plain_device(&node.registers()))
}
