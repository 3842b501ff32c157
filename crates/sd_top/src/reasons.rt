//! Why an event of a device alone is refused, as it is printed.
ghost use Rattle.std.specs.Prelude.{◌≡◌, ◌≤◌, [], length};
ghost use Rattle.sd_io.specs.outside.Printed.{printed};
ghost use Rattle.sd_commands.specs.solo.Faults.{fault_name};

use sd_commands::solo::SoloFault;
use sd_io::outside::LineBuffer;

/// Prints why an event of a device alone is refused.
pub fn print_solo_fault(out: &mut LineBuffer, fault: SoloFault)
    ensures text { printed out.new ≡ fault_name fault }
    ensures short { length (printed out.new) ≤ 64 }
{
    out.clear();
    out.push(match fault {
        SoloFault::UnknownDevice => b"UnknownDevice",
        SoloFault::TimeFalls => b"TimeFalls",
        SoloFault::CounterFalls => b"CounterFalls",
        SoloFault::NotStarted => b"NotStarted",
        SoloFault::StartedTwice => b"StartedTwice",
        SoloFault::AfterEnd => b"AfterEnd",
        SoloFault::TooManyEvents => b"TooManyEvents",
    });
}
