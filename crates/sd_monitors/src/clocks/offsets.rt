//! How far a counter lies off the reference. A reading keeps the rates with each earlier one of its
//! life exactly where neither of its offsets is beyond the least of the life by more than the grain.
ghost use Rattle.std.specs.Prelude.{◌≡◌, ◌&&◌, ℕ, List, IsTrue, nat_le};
ghost use Rattle.sd_monitors.specs.clocks.Readings.{pair_of, is_after_each, keeps_rates_with, no_offsets, offsets_at, lesser, are_within, least_offsets};

use sd_num::Rates;

/// Rates count in parts of this.
const MILLION: u128 = 1_000_000;

/// What the two offsets of any reading come to without their slack.
const TOGETHER: u128 = 2 * MILLION * u64::MAX as u128;

/// What a device's counter shows at a reference time, both in ps.
#[derive(Clone, Copy, Debug, PartialEq, Eq)]
pub struct Reading {
    pub reference: u64,
    pub counter: u64,
}

/// How far a counter lies off the reference at a reading, or the least of it in a life, in millionths
/// of a ps. Both are moved up by the greatest time for which any counter stands, so that neither is
/// negative.
#[derive(Clone, Copy, Debug, PartialEq, Eq)]
pub struct Offsets {
    /// By how much the least time for which the counter stands is past the reference.
    lead: u128,
    /// By how much the reference is past the greatest time for which the counter stands.
    lag: u128,
}

impl Offsets {
    /// Those of a life with no reading: the offsets of any reading are less.
    pub fn of_none() -> Offsets
        ensures { result ≡ no_offsets }
    {
        Offsets {
            lead: u128::MAX,
            lag: u128::MAX,
        }
    }

    /// Those of one reading.
    pub fn at(rates: Rates, reading: Reading) -> Offsets
        ensures offsets { result ≡ offsets_at rates.ppm (pair_of reading) }
        ensures rule { (readings : List (ℕ × ℕ)) → IsTrue (is_after_each readings (pair_of reading))
            → are_within rates.grain (least_offsets rates.ppm readings) result
            ≡ keeps_rates_with rates readings (pair_of reading) }
    {
        let counter_left = u64::MAX - reading.counter;
        let reference_left = u64::MAX - reading.reference;
        let slack = u128::from(rates.ppm) * u128::from(counter_left);
        let lead = MILLION * (u128::from(reading.counter) + u128::from(reference_left));
        Offsets {
            lead: lead + slack,
            lag: TOGETHER - lead + slack,
        }
    }

    /// Whether a further reading with these offsets keeps the rates with each of the life.
    pub fn allow(self, grain: u64, further: Offsets) -> bool
        ensures { result ≡ are_within grain self further }
    {
        let grain = u128::from(grain) * MILLION;
        further.lead.saturating_sub(self.lead) <= grain
            && further.lag.saturating_sub(self.lag) <= grain
    }

    /// Whether the others allow each further reading that these allow.
    pub fn are_at_most(self, other: Offsets) -> bool
        ensures { result ≡ (nat_le self.lead other.lead && nat_le self.lag other.lag) }
    {
        self.lead <= other.lead && self.lag <= other.lag
    }

    /// Those of the life with a further reading.
    pub fn with_reading(self, further: Offsets) -> Offsets
        ensures { result ≡ lesser self further }
    {
        Offsets {
            lead: self.lead.min(further.lead),
            lag: self.lag.min(further.lag),
        }
    }
}
