//! An observer that keeps all that it is told, for tests of what tells it.
ghost use Rattle.std.specs.Prelude.{◌≡◌, ◌≤◌, ◌+◌, [], map, OnOk};
ghost use Rattle.sd_device.specs.msg.Observing.{as_seen};

use crate::msg::{Observer, SeenReport};
use sd_num::NoMemory;
use sd_num::clock::Report;
use std::alloc::Global;
use std::marker::Model;

/// It keeps each report, and stands for that list alone.
#[derive(Drop)]
pub struct KeptReports {
    /// The oldest first.
    reports: Vec<SeenReport>,
}

impl Model for KeptReports {
    ghost use Rattle.sd_device.specs.msg.Observing.{Kept};

    ghost Value = { Kept };

    ghost use Rattle.sd_device.specs.msg.KeptView.{kept_seen};

    ghost view = { kept_seen };
}

impl KeptReports {
    /// Nothing was told yet.
    pub fn new(alloc: Global) -> KeptReports
        ensures { result.reports ≡ [] }
    {
        KeptReports {
            reports: Vec::new(alloc),
        }
    }

    /// All that was told, the oldest first.
    pub fn reports(&self) -> &[SeenReport]
        ensures { map as_seen result.now ≡ self.now.reports }
    {
        self.reports.as_slice()
    }
}

impl Observer for KeptReports {
    ghost stands = { λ s reports. s.reports ≡ reports };

    ghost room = { λ s. s.room };

    fn ready(&mut self, alloc: Global) -> Result<(), NoMemory> {
        match self.reports.reserve(1) {
            Ok(()) => Ok(()),
            Err(_) => Err(NoMemory),
        }
    }

    fn seen(&mut self, line: u64, device: u32, reference: u64, report: Report) {
        self.reports.push_reserved(SeenReport {
            line,
            device,
            reference,
            report,
        });
    }
}
