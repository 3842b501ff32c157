//! The bounds of all devices of a draft under one domain, added up.

/// How many devices have no bound, and the greatest of the others and their sum, in ps.
#[derive(Clone, Copy)]
pub(crate) struct Bounds {
    pub unbounded: u64,
    pub greatest: u128,
    pub sum: u128,
}

impl Bounds {
    /// Of no device.
    pub(crate) const NONE: Bounds = Bounds {
        unbounded: 0,
        greatest: 0,
        sum: 0,
    };

    /// With the bound of one device more.
    pub(crate) fn add(&mut self, bound: Option<u128>) {
        match bound {
            Some(bound) => {
                self.greatest = self.greatest.max(bound);
                self.sum = self.sum.saturating_add(bound);
            }
            None => self.unbounded = self.unbounded.saturating_add(1),
        }
    }

    /// Without the bound of one of the devices. The greatest stays.
    pub(crate) fn take_away(&mut self, bound: Option<u128>) {
        match bound {
            Some(bound) => self.sum = self.sum.saturating_sub(bound),
            None => self.unbounded = self.unbounded.saturating_sub(1),
        }
    }
}
