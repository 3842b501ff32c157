//! A rebase: the counters that a device keeps are brought into a normal form, and lowered.
ghost use Rattle.std.specs.Prelude.{◌≡◌, ◌≤◌, ◌<◌, ◌^◌};

use crate::registers::{Mode, Registers};
use crate::turns::wait_to_move;
use sd_plan::Role;

impl Registers {
    ghost use Rattle.sd_device.specs.Rules.{floor_in, ceiling_in};
    ghost use Rattle.sd_device.specs.Rebases.{waits_in, normal_at, least_in, lowered, lowering, rebased};

    /// It lowers its counters by as much as it can at this counter, and answers by how much.
    pub(crate) fn rebase(&mut self, now: u64) -> u64
        requires floor { floor_in self.old ≤ now }
        requires ceiling { ceiling_in self.old < 2 ^ 100 }
        ensures registers { self.new ≡ rebased self.old now }
        ensures lowered { result ≡ lowering self.old now }
    {
        self.normalise(now);
        let by = self.least();
        self.lower(by);
        by
    }

    /// Its normal form at this counter: a counter that nothing needs is now, and the estimate is
    /// advanced.
    fn normalise(&mut self, now: u64)
        requires floor { floor_in self.old ≤ now }
        requires ceiling { ceiling_in self.old < 2 ^ 100 }
        ensures { self.new ≡ normal_at self.old now }
    {
        if !self.waits() {
            self.last = now;
        }
        if self.mode != Mode::Acting {
            self.sent = now;
        }
        self.estimate = self.estimate.advance(self.rates, now);
    }

    /// Whether a silence makes it move or take over.
    fn waits(&self) -> bool
        ensures { result ≡ waits_in self.now }
    {
        let Some(duty) = &self.duty else {
            return false;
        };
        match self.mode {
            Mode::Primary => wait_to_move(duty).is_some(),
            Mode::Backup => duty.role == Role::BackupRoot,
            Mode::Acting | Mode::Idle => false,
        }
    }

    /// The least of the counters that are kept.
    fn least(&self) -> u64
        ensures { result ≡ least_in self.now }
    {
        self.last.min(self.sent).min(self.estimate.at)
    }

    /// Each counter is lowered by this much.
    fn lower(&mut self, by: u64)
        requires { by ≤ least_in self.old }
        ensures { self.new ≡ lowered by self.old }
    {
        self.last -= by;
        self.sent -= by;
        self.estimate.at -= by;
    }
}
