//! Why a line is none of a log, as it is printed.
ghost use Rattle.std.specs.Prelude.{◌≡◌, ◌≤◌, length};
ghost use Rattle.sd_io.specs.outside.Printed.{printed};
ghost use Rattle.sd_record.specs.logs.Reasons.{line_reason};

use crate::logs::LineFault;
use sd_io::outside::LineBuffer;

/// Prints why bytes are no line of a log, in at most 64 bytes.
pub fn print_line_fault(out: &mut LineBuffer, fault: LineFault)
    ensures text { printed out.new ≡ line_reason fault }
    ensures short { length (printed out.new) ≤ 64 }
{
    out.clear();
    match fault {
        LineFault::UnknownWord => out.push(b"UnknownWord"),
        LineFault::FieldCount => out.push(b"FieldCount"),
        LineFault::Number(field) => {
            out.push(b"Number ");
            out.push_number(u128::from(field));
        }
    }
}
