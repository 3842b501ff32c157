//! The calls that ask a device, and leave it as it is.
ghost use Rattle.std.specs.Prelude.{◌≡◌, ◌≢◌, Some, OnOk, IfOk, IfErr};
ghost use Rattle.sd_device.specs.Living.{Life};
ghost use Rattle.sd_device.specs.declared.registers.Registers.{Registers};
ghost use Rattle.sd_device.specs.Words.{report_at, parent_now, is_acting, epoch_now};
ghost use Rattle.sd_device.specs.Lives.{past_of};
ghost use Rattle.sd_device.specs.Rules.{report_in, parent_in, acts_in, epoch_in};
ghost use Rattle.sd_device_c.specs.Plain.{Holds, report_from, parent_from, flag_from};
ghost use Rattle.sd_device_c.specs.Answers.{IsAnswerFor, MayReport, HasReportFault, IsDevice, IsNoDevice, IsToldOf};

use crate::checks::{check_report, held};
use crate::faults::{DONE, Fault};
use crate::plain::{PlainDevice, PlainParent, PlainReport};
use crate::writing::{plain_flag, plain_parent, plain_report};
use sd_device::{Device, Node};

/// What the device takes the reference time for while its counter shows this many ps.
#[unsafe(no_mangle)]
pub extern "C" fn sundial_report(
    device: &PlainDevice,
    counter: u64,
    report: &mut PlainReport,
) -> u32
    ensures answer { IsAnswerFor result (MayReport device.now counter)
        (HasReportFault device.now counter) }
    ensures same { result ≢ 0 → report.new ≡ report.old }
    ensures told { result ≡ 0 → IsToldOf device.now (λ r. report_in r counter)
        (λ past. report_at past counter) (report_from report.new) }
{
    match report_of(device, counter) {
        Ok(told) => {
            *report = told;
            DONE
        }
        Err(fault) => fault.code(),
    }
}

#[inline(always)]
fn report_of(device: &PlainDevice, counter: u64) -> Result<PlainReport, Fault>
    ensures may { OnOk result (MayReport device.now counter) }
    ensures ok { IfOk result (λ report. IsToldOf device.now (λ r. report_in r counter)
        (λ past. report_at past counter) (report_from report)) }
    ensures err { IfErr result (HasReportFault device.now counter) }
{
    let registers = held(device)?;
    check_report(&registers, counter)?;
    let node = Device::with_registers(registers);
    Ok(plain_report(node.report_at(counter)))
}

/// The device that it follows, if it follows one.
#[unsafe(no_mangle)]
pub extern "C" fn sundial_parent(device: &PlainDevice, parent: &mut PlainParent) -> u32
    ensures answer { IsAnswerFor result (IsDevice device.now) (IsNoDevice device.now) }
    ensures same { result ≢ 0 → parent.new ≡ parent.old }
    ensures told { result ≡ 0
        → IsToldOf device.now parent_in parent_now (parent_from parent.new) }
{
    match held(device) {
        Ok(registers) => {
            *parent = plain_parent(Device::with_registers(registers).parent());
            DONE
        }
        Err(fault) => fault.code(),
    }
}

/// Whether it acts as root: 1, and else 0.
#[unsafe(no_mangle)]
pub extern "C" fn sundial_acts(device: &PlainDevice, acts: &mut u8) -> u32
    ensures answer { IsAnswerFor result (IsDevice device.now) (IsNoDevice device.now) }
    ensures same { result ≢ 0 → acts.new ≡ acts.old }
    ensures told { result ≡ 0 → IsToldOf device.now acts_in is_acting (flag_from acts.new) }
{
    match held(device) {
        Ok(registers) => {
            *acts = plain_flag(Device::with_registers(registers).acts_as_root());
            DONE
        }
        Err(fault) => fault.code(),
    }
}

/// The number of the plan that it follows, from 1; 0 where it follows none yet.
#[unsafe(no_mangle)]
pub extern "C" fn sundial_epoch(device: &PlainDevice, epoch: &mut u32) -> u32
    ensures answer { IsAnswerFor result (IsDevice device.now) (IsNoDevice device.now) }
    ensures same { result ≢ 0 → epoch.new ≡ epoch.old }
    ensures told { result ≡ 0 → IsToldOf device.now epoch_in epoch_now epoch.new }
{
    match held(device) {
        Ok(registers) => {
            *epoch = Device::with_registers(registers).epoch();
            DONE
        }
        Err(fault) => fault.code(),
    }
}
