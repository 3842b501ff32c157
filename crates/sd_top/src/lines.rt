//! The lines that are printed for a schedule.
ghost use Rattle.std.specs.Prelude.{◌≡◌, [], ◌∷◌, codes, decimal};
ghost use Rattle.sd_num.specs.Texts.{text_of};
ghost use Rattle.sd_io.specs.outside.Printed.{printed};
ghost use Rattle.sd_commands.specs.solo.Histories.{report_text};

use sd_io::outside::LineBuffer;
use sd_num::clock::Report;

/// Prints the line of a report that is due at a line of the schedule.
pub fn print_report(out: &mut LineBuffer, line: u32, report: Report)
    ensures { printed out.new ≡ report_text line report }
{
    out.clear();
    out.push(b"report ");
    out.push_number(u128::from(line));
    out.push(b" 0 ");
    out.push_number(report.clock);
    out.push(b" ");
    out.push_number(report.eps);
    out.push(b"\n");
}

/// Prints the last line of a schedule that has ended.
pub fn print_done(out: &mut LineBuffer, events: u32, reports: u32)
    ensures { printed out.new ≡ text_of (codes "done" ∷ decimal events ∷ decimal reports ∷ []) }
{
    out.clear();
    out.push(b"done ");
    out.push_number(u128::from(events));
    out.push(b" ");
    out.push_number(u128::from(reports));
    out.push(b"\n");
}
