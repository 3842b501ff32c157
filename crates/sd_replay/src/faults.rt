//! Why a replay does not go on.
ghost use Rattle.std.specs.Prelude.{◌≡◌};

use sd_fleet::ApplyFault;
use sd_sched::LineFault;

/// Why an event did not happen. The replay is as before.
#[derive(Clone, Copy, Debug, PartialEq, Eq)]
pub enum ReplayFault {
    /// The bytes are no line of a schedule.
    Line(LineFault),
    /// The fleet refuses the event. It is never `Memory` here.
    Apply(ApplyFault),
    /// There was no memory for a `tick`, a `recv` or an `ask`.
    Memory,
}

impl From<ApplyFault> for ReplayFault {
    ghost use Rattle.sd_replay.specs.FleetFaults.{of_fleet};

    ghost from_gives = { λ fault replay_fault. replay_fault ≡ of_fleet fault };

    fn from(fault: ApplyFault) -> ReplayFault {
        match fault {
            ApplyFault::Memory => ReplayFault::Memory,
            _ => ReplayFault::Apply(fault),
        }
    }
}
