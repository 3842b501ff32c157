//! Who is told of each report.
ghost use Rattle.std.specs.Prelude.{◌≤◌, ◌<◌, ◌+◌, ◌^◌, ◌++◌, ◌∷◌, [], ℕ, List, OnOk};
ghost use Rattle.sd_device.specs.msg.Observed.{ReportAt};
ghost use Rattle.sd_device.specs.msg.Observing.{report_at};

use sd_num::NoMemory;
use sd_num::clock::Report;
use std::alloc::Global;

/// It is told of each report. What it holds stands for lists of reports, the oldest first.
pub trait Observer: Drop {
    /// It stands for this list.
    ghost stands: { Self → List ReportAt → Type 0 };

    /// For how many more reports there is room.
    ghost room: { Self → ℕ };

    /// Makes room for one more report. Whatever it answers, it stands for what it stood for.
    fn ready(&mut self, alloc: Global) -> Result<(), NoMemory>
        ensures ready { OnOk result (1 ≤ room self.new) }
        ensures room { room self.old ≤ room self.new }
        ensures keeps { (reports : List ReportAt) → stands self.old reports
            → stands self.new reports };

    /// Tells it of a report: the number of its line, its device, and the reference time in ps. It
    /// takes no memory.
    fn seen(&mut self, line: u64, device: u32, reference: u64, report: Report)
        requires ready { 1 ≤ room self.old }
        requires clock { report.clock < 2 ^ 101 }
        requires eps { report.eps < 2 ^ 101 }
        ensures room { room self.old ≤ room self.new + 1 }
        ensures told { (reports : List ReportAt) → stands self.old reports
            → stands self.new (reports ++ report_at line device reference report ∷ []) };
}

/// It keeps nothing, and so stands for every list.
#[derive(Drop)]
pub struct NoObserver;

impl Observer for NoObserver {
    ghost stands = { λ _ _. Unit {0} };

    ghost room = { λ _. 1 };

    fn ready(&mut self, alloc: Global) -> Result<(), NoMemory> {
        Ok(())
    }

    fn seen(&mut self, line: u64, device: u32, reference: u64, report: Report) {}
}
