//! The seven premises.

use super::replay::PlainReplay;
use sd_sched::Event;
use std::alloc::AllocError;

/// What is asked of the fabric, in the order in which broken premises are printed.
#[derive(Clone, Copy, Debug, PartialEq, Eq)]
pub enum Premise {
    /// Clocks are set right.
    Start,
    /// Oscillators keep their rates.
    Drift,
    /// Links keep their delays.
    Delay,
    /// Devices tick in time.
    Tick,
    /// Few rounds in a row are spoiled.
    Loss,
    /// What fails lies in one domain.
    Domain,
    /// Plans are changed with care.
    Renew,
}

/// All of them, in their order.
pub const PREMISES: [Premise; 7] = [
    Premise::Start,
    Premise::Drift,
    Premise::Delay,
    Premise::Tick,
    Premise::Loss,
    Premise::Domain,
    Premise::Renew,
];

impl Premise {
    /// The word by which it is printed.
    pub fn word(self) -> &'static str {
        match self {
            Premise::Start => "start",
            Premise::Drift => "drift",
            Premise::Delay => "delay",
            Premise::Tick => "tick",
            Premise::Loss => "loss",
            Premise::Domain => "domain",
            Premise::Renew => "renew",
        }
    }
}

impl PlainReplay<'_> {
    /// Whether an event that comes now is against a premise. Of losses nothing is said before it
    /// has happened.
    pub(crate) fn is_against(&self, premise: Premise, event: &Event) -> Result<bool, AllocError> {
        match premise {
            Premise::Start => Ok(self.is_against_start(event)),
            Premise::Drift => Ok(self.is_against_drift(event)),
            Premise::Delay => Ok(self.is_against_delay(event)),
            Premise::Tick => Ok(self.is_against_tick(event)),
            Premise::Loss => Ok(false),
            Premise::Domain => Ok(self.is_against_domain(event)),
            Premise::Renew => self.is_against_renew(event),
        }
    }
}
