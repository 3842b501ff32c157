//! Why the fleet refuses an event, as it is printed.
ghost use Rattle.std.specs.Prelude.{◌≡◌, ◌≤◌, length};
ghost use Rattle.sd_io.specs.outside.Printed.{printed};
ghost use Rattle.sd_record.specs.Reasons.{apply_name};

use crate::ApplyFault;
use sd_io::outside::LineBuffer;

/// The name of a refusal of the fleet.
fn name_of(fault: ApplyFault) -> &'static [u8]
    ensures name { result.now ≡ apply_name fault }
    ensures short { length result.now ≤ 64 }
{
    match fault {
        ApplyFault::UnknownDevice => b"UnknownDevice",
        ApplyFault::UnknownLink => b"UnknownLink",
        ApplyFault::DeadDevice => b"DeadDevice",
        ApplyFault::DeadLink => b"DeadLink",
        ApplyFault::UnknownMessage => b"UnknownMessage",
        ApplyFault::SpentMessage => b"SpentMessage",
        ApplyFault::WrongDevice => b"WrongDevice",
        ApplyFault::TimeFalls => b"TimeFalls",
        ApplyFault::CounterFalls => b"CounterFalls",
        ApplyFault::NotStarted => b"NotStarted",
        ApplyFault::StartedTwice => b"StartedTwice",
        ApplyFault::NoPlanLeft => b"NoPlanLeft",
        ApplyFault::WindowOrder => b"WindowOrder",
        ApplyFault::AfterEnd => b"AfterEnd",
        ApplyFault::NotFailed => b"NotFailed",
        ApplyFault::NotMember => b"NotMember",
        ApplyFault::TooManyEvents => b"TooManyEvents",
        ApplyFault::Memory => b"Memory",
    }
}

/// Prints why the fleet refuses an event, in at most 64 bytes.
pub(crate) fn print_apply_fault(out: &mut LineBuffer, fault: ApplyFault)
    ensures text { printed out.new ≡ apply_name fault }
    ensures short { length (printed out.new) ≤ 64 }
{
    out.clear();
    out.push(name_of(fault));
}
