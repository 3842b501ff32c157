//! Estimates of the reference time, and the reports that are made of them.
ghost use Rattle.std.specs.Prelude.{◌≡◌, ◌<◌, ◌≤◌, ◌^◌, ℕ};
ghost use Rattle.sd_num.specs.clock.Estimates.{estimate_at, corrected as corrected_estimate, report_of};
ghost use Rattle.sd_num.specs.clock.Advances.{advanced};

#[cfg(test)]
mod tests;

use crate::{Bounds, Rates, grow};

/// A reported interval, in picoseconds. The reference time lies in it while oscillators and links
/// are honest.
#[derive(Clone, Copy, Debug, PartialEq, Eq)]
pub struct Report {
    /// The middle of the interval.
    pub clock: u128,
    /// How far the reference time may lie from the middle.
    pub eps: u128,
}

/// What a device knew of the reference time when its counter showed `at`. All are picoseconds.
#[derive(Clone, Copy, Debug, PartialEq, Eq)]
pub struct Estimate {
    /// The clock at that counter.
    pub clock: u128,
    /// How far the reference time may lie from that clock then.
    pub base: u128,
    /// The counter at the setting event.
    pub at: u64,
}

/// A microsecond, in ps.
const MICROSECOND: u64 = 1_000_000;

impl Estimate {
    /// The estimate that a start, a join or a fix sets.
    pub fn set(clock: u64, eps: u64, counter: u64) -> Estimate
        ensures { result ≡ estimate_at clock eps counter }
    {
        Estimate {
            clock: u128::from(clock),
            base: u128::from(eps),
            at: counter,
        }
    }

    /// The report at a later counter: the clock goes on as the counter did, and the uncertainty
    /// grows by the grain and by the drift since the setting event.
    pub fn report(&self, rates: Rates, counter: u64) -> Report
        requires later { self.now.at ≤ counter }
        requires clock { self.now.clock < 2 ^ 100 }
        requires eps { self.now.base < 2 ^ 100 }
        requires ppm { rates.ppm ≤ 1000000 }
        ensures { result ≡ report_of rates self.now counter }
    {
        let elapsed = counter - self.at;
        Report {
            clock: self.clock + u128::from(elapsed),
            eps: self.base + u128::from(rates.grain) + u128::from(grow(rates.ppm, elapsed)),
        }
    }

    /// The estimate moved on to this counter, by whole microseconds: it reports the same from there
    /// on.
    #[tactic(auto, using(crate::proofs::clock::Advance::advanced_reports))]
    pub fn advance(&self, rates: Rates, now: u64) -> Estimate
        requires later { self.now.at ≤ now }
        requires clock { self.now.clock < 2 ^ 100 }
        requires eps { self.now.base < 2 ^ 100 }
        ensures advanced { result ≡ advanced rates self.now now }
        ensures reports { (counter : ℕ) → now ≤ counter
            → report_of rates result counter ≡ report_of rates self.now counter }
    {
        let microseconds = (now - self.at) / MICROSECOND;
        Estimate {
            clock: self.clock + u128::from(MICROSECOND * microseconds),
            base: self.base + u128::from(rates.ppm) * u128::from(microseconds),
            at: self.at + MICROSECOND * microseconds,
        }
    }
}

/// The estimate after a message that carried a report: its delay is taken as the middle of its
/// bounds, and the uncertainty grows by how far it may lie from that.
pub fn corrected(sent: Report, bounds: Bounds, counter: u64) -> Estimate
    requires clock { sent.clock < 2 ^ 100 }
    requires eps { sent.eps < 2 ^ 100 }
    ensures { result ≡ corrected_estimate sent bounds counter }
{
    Estimate {
        clock: sent.clock + u128::from(bounds.mid),
        base: sent.eps + u128::from(bounds.half),
        at: counter,
    }
}
