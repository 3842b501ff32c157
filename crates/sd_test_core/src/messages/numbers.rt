//! Calls that are made by counting: each is decided by the digits of one number after another.

use super::calls::{Call, flight};
use super::flagged::AllFlights;
use sd_plan::topo::Thing;

/// A linear congruential number.
#[derive(Drop)]
pub struct Numbers {
    pub state: u64,
}

impl Numbers {
    fn below(&mut self, bound: u64) -> u64 {
        self.state = self
            .state
            .wrapping_mul(6_364_136_223_846_793_005)
            .wrapping_add(1_442_695_040_888_963_407);
        (self.state >> 33).checked_rem(bound).unwrap_or(0)
    }

    fn small(&mut self, bound: u64) -> u32 {
        u32::try_from(self.below(bound)).unwrap_or(0)
    }

    /// A number that was given lately, or else one that was not.
    fn number(&mut self, all: &AllFlights) -> u64 {
        let back = self.below(40);
        all.count().saturating_add(1).saturating_sub(back)
    }

    /// A call at this place, after what was sent before.
    pub fn call(&mut self, place: u64, all: &AllFlights) -> Call {
        let reference = place.saturating_mul(10);
        match self.small(64) {
            0..=27 => {
                let last = reference.saturating_add(self.below(300));
                Call::Send(flight(self.small(9), self.small(7), last, self.small(8) > 0))
            }
            28..=33 => Call::Look {
                number: self.number(all),
            },
            34..=51 => {
                let number = self.number(all);
                let device = match self.small(5) {
                    0 => self.small(7),
                    _ => all.receiver(number),
                };
                Call::Take { number, device }
            }
            52..=55 => Call::Lose {
                number: self.number(all),
            },
            56 => Call::Sweep(Thing::Link(self.small(9))),
            57 => Call::Sweep(Thing::Device(self.small(7))),
            _ => Call::Purge { reference },
        }
    }
}
