//! The call that lowers the counters that a device keeps.
ghost use Rattle.std.specs.Prelude.{◌≡◌, ◌≢◌, OnOk, IfOk, IfErr};
ghost use Rattle.std.specs.List.{AllZip};
ghost use Rattle.sd_device_c.specs.Answers.{IsAnswerFor, MayReport, HasReportFault, IsRebased};
ghost use Rattle.sd_device_c.specs.Ports.{IsLowered};

use crate::checks::{check_report, held};
use crate::faults::{DONE, Fault};
use crate::plain::{PlainDevice, PlainPort};
use crate::ports::lower_all;
use crate::writing::plain_device;
use sd_device::Device;

/// The device lowers the counters that it keeps by as much as it can, while its counter shows this
/// many ps. From now on its counter is to be given as that much less.
#[unsafe(no_mangle)]
pub extern "C" fn sundial_rebase(device: &mut PlainDevice, counter: u64, lowered: &mut u64) -> u32
    ensures answer { IsAnswerFor result (MayReport device.old counter)
        (HasReportFault device.old counter) }
    ensures same { result ≢ 0 → (device.new ≡ device.old) × (lowered.new ≡ lowered.old) }
    ensures rebased { result ≡ 0 → IsRebased device.old counter device.new lowered.new }
{
    match rebase(device, counter) {
        Ok((after, by)) => {
            *device = after;
            *lowered = by;
            DONE
        }
        Err(fault) => fault.code(),
    }
}

/// The same, of the device and of its ports.
#[unsafe(no_mangle)]
pub extern "C" fn sundial_rebase_with_ports(
    device: &mut PlainDevice,
    ports: &mut [PlainPort],
    counter: u64,
    lowered: &mut u64,
) -> u32
    ensures answer { IsAnswerFor result (MayReport device.old counter)
        (HasReportFault device.old counter) }
    ensures same { result ≢ 0 → (device.new ≡ device.old) × (lowered.new ≡ lowered.old) }
    ensures same_ports { result ≢ 0 → ports.new ≡ ports.old }
    ensures rebased { result ≡ 0 → IsRebased device.old counter device.new lowered.new }
    ensures ports { result ≡ 0 → AllZip (IsLowered lowered.new) ports.old ports.new }
{
    match rebase(device, counter) {
        Ok((after, by)) => {
            *device = after;
            lower_all(ports, by);
            *lowered = by;
            DONE
        }
        Err(fault) => fault.code(),
    }
}

#[inline(always)]
fn rebase(device: &PlainDevice, counter: u64) -> Result<(PlainDevice, u64), Fault>
    ensures may { OnOk result (MayReport device.now counter) }
    ensures ok { IfOk result (λ after. IsRebased device.now counter after.0 after.1) }
    ensures err { IfErr result (HasReportFault device.now counter) }
{
    let registers = held(device)?;
    check_report(&registers, counter)?;
    let mut node = Device::with_registers(registers);
    let by = node.rebase(counter);
    Ok((plain_device(&node.registers()), by))
}
