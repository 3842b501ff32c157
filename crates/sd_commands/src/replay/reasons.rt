//! Why a line of a schedule is refused, as it is printed.
ghost use Rattle.std.specs.Prelude.{◌≡◌, ◌≤◌, OnOk, length};
ghost use Rattle.sd_io.specs.outside.Printed.{printed};
ghost use Rattle.sd_commands.specs.replay.Reasons.{apply_name, line_reason};
ghost use Rattle.sd_commands.specs.replay.Reasoned.{HasReason};

use sd_io::outside::LineBuffer;
use sd_num::NoMemory;
use sd_replay::{ApplyFault, ReplayFault};
use sd_sched::LineFault;

/// Prints why bytes are no line of a schedule, in at most 64 bytes.
pub fn print_line_fault(out: &mut LineBuffer, fault: LineFault)
    ensures text { printed out.new ≡ line_reason fault }
    ensures short { length (printed out.new) ≤ 64 }
{
    out.clear();
    match fault {
        LineFault::UnknownWord => out.push(b"UnknownWord"),
        LineFault::FieldCount => out.push(b"FieldCount"),
        LineFault::Number(field) => {
            out.push(b"Number ");
            out.push_number(u128::from(field));
        }
    }
}

/// The name of a refusal of the fleet.
fn name_of(fault: ApplyFault) -> &'static [u8]
    ensures name { result.now ≡ apply_name fault }
    ensures short { length result.now ≤ 64 }
{
    match fault {
        ApplyFault::UnknownDevice => b"UnknownDevice",
        ApplyFault::UnknownLink => b"UnknownLink",
        ApplyFault::DeadDevice => b"DeadDevice",
        ApplyFault::DeadLink => b"DeadLink",
        ApplyFault::UnknownMessage => b"UnknownMessage",
        ApplyFault::SpentMessage => b"SpentMessage",
        ApplyFault::WrongDevice => b"WrongDevice",
        ApplyFault::TimeFalls => b"TimeFalls",
        ApplyFault::CounterFalls => b"CounterFalls",
        ApplyFault::NotStarted => b"NotStarted",
        ApplyFault::StartedTwice => b"StartedTwice",
        ApplyFault::NoPlanLeft => b"NoPlanLeft",
        ApplyFault::WindowOrder => b"WindowOrder",
        ApplyFault::AfterEnd => b"AfterEnd",
        ApplyFault::NotFailed => b"NotFailed",
        ApplyFault::NotMember => b"NotMember",
        ApplyFault::TooManyEvents => b"TooManyEvents",
        ApplyFault::Memory => b"Memory",
    }
}

/// Prints why the fleet refuses an event, in at most 64 bytes.
fn print_apply_fault(out: &mut LineBuffer, fault: ApplyFault)
    ensures text { printed out.new ≡ apply_name fault }
    ensures short { length (printed out.new) ≤ 64 }
{
    out.clear();
    out.push(name_of(fault));
}

/// Prints why a line is refused, in at most 64 bytes. Out of memory is no reason.
pub(crate) fn print_reason(out: &mut LineBuffer, fault: ReplayFault) -> Result<(), NoMemory>
    ensures reason { OnOk result (HasReason fault (printed out.new)) }
    ensures short { OnOk result (length (printed out.new) ≤ 64) }
{
    match fault {
        ReplayFault::Line(fault) => {
            print_line_fault(out, fault);
            Ok(())
        }
        ReplayFault::Apply(fault) => {
            print_apply_fault(out, fault);
            Ok(())
        }
        ReplayFault::Memory => Err(NoMemory),
    }
}
