//! How a refusal is printed.
ghost use Rattle.std.specs.Prelude.{Some};
ghost use Rattle.sd_commands.specs.solo.Faults.{fault_name};

use crate::solo::SoloFault;
use std::fmt;

impl fmt::Display for SoloFault {
    ghost output = { λ fault. Some (fault_name fault) };

    fn fmt<W: fmt::Write>(&self, f: &mut fmt::Formatter<W>) -> fmt::Result {
        f.write_str(match self {
            SoloFault::UnknownDevice => "UnknownDevice",
            SoloFault::TimeFalls => "TimeFalls",
            SoloFault::CounterFalls => "CounterFalls",
            SoloFault::NotStarted => "NotStarted",
            SoloFault::StartedTwice => "StartedTwice",
            SoloFault::AfterEnd => "AfterEnd",
            SoloFault::TooManyEvents => "TooManyEvents",
        })
    }
}
