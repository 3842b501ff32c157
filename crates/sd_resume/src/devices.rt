//! In which register two devices differ.
ghost use Rattle.std.specs.Prelude.{◌≡◌, ◌+◌, ◌≤◌, ◌<◌, ◌^◌, None, IfSome};
ghost use Rattle.sd_device.specs.Rules.{floor_in, ceiling_in};
ghost use Rattle.sd_device.specs.Rebases.{normal_at};
ghost use Rattle.sd_resume.specs.Numbers.{shift_of};
ghost use Rattle.sd_resume.specs.Devices.{raised_by, OthersAgree, OtherDiffers, RegistersAgree, RegisterDiffers, DevicesAgree};

use crate::differences::Register;
use crate::duties::raises_duties;
use crate::shift::Shift;
use sd_device::{Device, Registers};

/// The first register in which the two differ in their normal forms at a counter, if there is one.
pub(crate) fn compare_devices(
    one: &Device,
    other: &Device,
    shift: &Shift,
    now: u64,
) -> Option<Register>
    requires floor { floor_in one.now ≤ now }
    requires ceiling { ceiling_in one.now < 2 ^ 100 }
    requires floor_other { floor_in other.now ≤ now }
    requires ceiling_other { ceiling_in other.now < 2 ^ 100 }
    ensures agree { result ≡ None → DevicesAgree (shift_of shift.now) now one.now other.now }
    ensures differ { IfSome result
        (RegisterDiffers (shift_of shift.now) (normal_at one.now now) (normal_at other.now now)) }
{
    compare_registers(&normal_of(one, now), &normal_of(other, now), shift)
}

/// The registers of a device in their normal form at a counter.
#[tactic(auto, using(crate::proofs::Normal::normal_again, crate::proofs::Normal::rebased_is_small))]
fn normal_of(device: &Device, now: u64) -> Registers
    requires floor { floor_in device.now ≤ now }
    requires ceiling { ceiling_in device.now < 2 ^ 100 }
    ensures { result ≡ normal_at device.now now }
{
    // a rebase lowers the counters of the normal form
    let mut rebased = Device::with_registers(device.registers());
    let by = rebased.rebase(now);
    raise(rebased.registers(), by)
}

/// The registers with each counter raised by this much.
fn raise(registers: Registers, by: u64) -> Registers
    requires last { registers.last + by < 2 ^ 64 }
    requires sent { registers.sent + by < 2 ^ 64 }
    requires at { registers.estimate.at + by < 2 ^ 64 }
    ensures { result ≡ raised_by by registers }
{
    let mut raised = registers;
    raised.last += by;
    raised.sent += by;
    raised.estimate.at += by;
    raised
}

/// The first register in which the two differ, if there is one.
fn compare_registers(one: &Registers, other: &Registers, shift: &Shift) -> Option<Register>
    ensures agree { result ≡ None → RegistersAgree (shift_of shift.now) one.now other.now }
    ensures differ { IfSome result (RegisterDiffers (shift_of shift.now) one.now other.now) }
{
    if !raises_duties(&one.duty, &other.duty, shift) {
        return Some(Register::Duty);
    }
    if !raises_duties(&one.given, &other.given, shift) {
        return Some(Register::Given);
    }
    if other.duty.is_some() && !shift.raises_stamp(one.stamp, other.stamp) {
        return Some(Register::Stamp);
    }
    compare_others(one, other)
}

/// The first register in which the two differ, of those that bear no number of a history.
fn compare_others(one: &Registers, other: &Registers) -> Option<Register>
    ensures agree { result ≡ None → OthersAgree one.now other.now }
    ensures differ { IfSome result (OtherDiffers one.now other.now) }
{
    if one.mode != other.mode {
        return Some(Register::Mode);
    }
    if one.sealed != other.sealed {
        return Some(Register::Sealed);
    }
    if one.rates != other.rates {
        return Some(Register::Rates);
    }
    if one.last != other.last {
        return Some(Register::Last);
    }
    if one.sent != other.sent {
        return Some(Register::Sent);
    }
    if one.estimate != other.estimate {
        return Some(Register::Estimate);
    }
    None
}
