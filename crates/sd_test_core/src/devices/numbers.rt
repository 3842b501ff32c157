//! Calls that are made by counting: each is decided by the digits of one number after another.

use super::plain::{Call, Making, Plain};
use super::{RATES, duty, edge, message};
use sd_num::Rates;
use sd_plan::{Duty, Edge, Role};

/// A linear congruential number.
#[derive(Drop)]
pub(super) struct Numbers {
    pub(super) state: u64,
}

impl Numbers {
    fn below(&mut self, bound: u64) -> u64 {
        self.state = self
            .state
            .wrapping_mul(6_364_136_223_846_793_005)
            .wrapping_add(1_442_695_040_888_963_407);
        (self.state >> 33).checked_rem(bound).unwrap_or(0)
    }

    fn small(&mut self, bound: u64) -> u32 {
        u32::try_from(self.below(bound)).unwrap_or(0)
    }

    fn edge(&mut self) -> Option<Edge> {
        match self.small(4) {
            3 => None,
            link => edge(self.small(9), link),
        }
    }

    fn duty(&mut self, epoch: u32) -> Duty {
        let role = match self.small(5) {
            0 => Role::Root,
            1 | 2 => Role::BackupRoot,
            _ => Role::Ordinary,
        };
        Duty {
            rates: Rates {
                ppm: self.small(1_000),
                grain: self.below(50),
            },
            ..duty(epoch, role, self.edge(), self.edge())
        }
    }

    pub(super) fn making(&mut self) -> Making {
        let duty = match self.small(4) {
            0 => None,
            _ => Some(self.duty(1)),
        };
        Making {
            duty,
            rates: RATES,
            counter: self.below(1_000),
            clock: self.below(1_000),
            eps: self.below(100),
        }
    }

    /// A call at this place of the life, so long as the device is as the plain one.
    pub(super) fn call(&mut self, place: u32, counter: u64, plain: &Plain) -> Call {
        let counter = counter.saturating_add(self.below(250));
        match self.small(16) {
            0..=5 => Call::Tick { counter },
            6..=10 => {
                let epoch = plain.epoch().saturating_add(self.small(3) / 2);
                let term = (place / 20).saturating_add(self.small(2));
                let round = self.below(4);
                Call::Receive {
                    link: self.small(3),
                    message: message(epoch, term, round, u128::from(counter)),
                    counter,
                }
            }
            11 => Call::Fix {
                counter,
                clock: self.below(1_000_000),
                eps: self.below(100),
            },
            12 | 13 => Call::Give(self.duty(plain.epoch().saturating_add(1))),
            14 => Call::Commit { counter },
            _ => Call::Seal,
        }
    }
}
