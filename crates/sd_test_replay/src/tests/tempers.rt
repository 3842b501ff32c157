//! How honest histories are.

use sd_test_fleet_kit::plain::Numbers;

/// What fails in a history.
#[derive(Clone, Copy, PartialEq)]
pub(super) enum Failures {
    Nothing,
    /// What the next plan is made for.
    Planned,
    Anything,
}

/// How plans are changed.
#[derive(Clone, Copy, PartialEq)]
pub(super) enum Renewals {
    Never,
    /// One step after the other.
    Careful,
    /// Whatever the fleet accepts.
    Rash,
}

/// How honest a history is: of how many things of a kind one is wrong, or none where it is 0.
#[derive(Clone, Copy)]
pub(super) struct Temper {
    /// How many events are drawn.
    pub(super) events: u32,
    /// Clocks that are set.
    pub(super) clocks: u64,
    /// Readings.
    pub(super) counters: u64,
    pub(super) delays: u64,
    /// Ticks that come too late.
    pub(super) ticks: u64,
    /// Messages that are lost.
    pub(super) losses: u64,
    /// Events before which nothing happens for a long time.
    pub(super) silences: u64,
    pub(super) failures: Failures,
    pub(super) renewals: Renewals,
}

/// Nothing is wrong, and nothing fails.
const HONEST: Temper = Temper {
    events: 200,
    clocks: 0,
    counters: 0,
    delays: 0,
    ticks: 0,
    losses: 0,
    silences: 0,
    failures: Failures::Nothing,
    renewals: Renewals::Never,
};

/// What fails is what the next plan is made for, and plans are changed with care.
pub(super) const RENEWED: Temper = Temper {
    events: 300,
    failures: Failures::Planned,
    renewals: Renewals::Careful,
    ..HONEST
};

/// Many messages are lost.
const LOSSY: Temper = Temper {
    losses: 6,
    ..RENEWED
};

/// Clocks are set wrong, counters jump, and messages come too early or too late.
const SKEWED: Temper = Temper {
    clocks: 4,
    counters: 40,
    delays: 20,
    ..HONEST
};

/// Devices tick too late, and now and then nothing happens for a long time.
const TARDY: Temper = Temper {
    ticks: 30,
    silences: 60,
    ..HONEST
};

/// Anything fails, in one domain or in more.
const BROKEN: Temper = Temper {
    failures: Failures::Anything,
    losses: 30,
    silences: 100,
    ..HONEST
};

/// Plans are changed whether or not all is ready, and anything fails.
pub(super) const RASH: Temper = Temper {
    failures: Failures::Anything,
    renewals: Renewals::Rash,
    ..HONEST
};

/// All of them.
pub(super) const TEMPERS: [Temper; 7] = [HONEST, RENEWED, LOSSY, SKEWED, TARDY, BROKEN, RASH];

/// Whether one of this many things of a kind is wrong.
pub(super) fn goes_wrong(numbers: &mut Numbers, times: u64) -> bool {
    times != 0 && numbers.once_in(times)
}
