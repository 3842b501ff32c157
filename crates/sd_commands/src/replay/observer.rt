//! Who is told of the reports where commit wait is watched.
ghost use Rattle.std.specs.Prelude.{◌≡◌, []};
ghost use Rattle.sd_commands.specs.replay.Telling.{IsTold};

use sd_device::msg::Observer;
use sd_num::NoMemory;
use sd_num::clock::Report;
use sd_replay::wait::Waits;
use std::alloc::Global;

/// Commit wait, and the device of the latest report, by which its lines are named.
#[derive(Drop)]
pub struct WaitObserver {
    pub waits: Waits,
    pub device: Option<u32>,
}

impl WaitObserver {
    /// No report was seen.
    pub fn new(alloc: Global) -> WaitObserver
        ensures { IsTold result [] }
    {
        WaitObserver {
            waits: Waits::new(alloc),
            device: None,
        }
    }
}

impl Observer for WaitObserver {
    ghost use Rattle.sd_commands.specs.replay.Telling.{IsTold};

    ghost stands = { IsTold };

    ghost room = { λ s. s.waits.room };

    fn ready(&mut self, alloc: Global) -> Result<(), NoMemory> {
        self.waits.ready(alloc)
    }

    fn seen(&mut self, line: u64, device: u32, reference: u64, report: Report) {
        self.waits.seen(line, device, reference, report);
        self.device = Some(device);
    }
}
