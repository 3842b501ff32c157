//! What is next to do in a history.

use crate::plain::history::Plain;
use sd_plan::topo::Thing;

/// What it may be a device's turn for.
#[derive(Clone, Copy)]
pub enum Turn {
    /// To start for the first time.
    Start,
    /// To be told its duty in the staged plan.
    Give,
    Join,
    Seal,
    /// To tick, since it acts as root.
    Act,
    Mend,
}

impl Plain<'_> {
    fn is_turn_of(&self, d: u32, turn: Turn) -> bool {
        let staged = self.staged_epoch();
        let failed = self.has_failed(Thing::Device(d));
        match turn {
            Turn::Start => self.is_in_force(d) && !self.was_made(d) && !failed,
            Turn::Give => {
                self.is_present(d) && self.given(d) != Some(staged) && self.epoch_of(d) != staged
            }
            Turn::Join => self.is_in_staged(d) && !self.is_counted(d) && !failed,
            Turn::Seal => self.is_of(d, staged) && !self.is_sealed(d),
            Turn::Act => self.acts(d),
            Turn::Mend => failed,
        }
    }

    /// The first device whose turn it is.
    pub fn first(&self, turn: Turn) -> Option<u32> {
        for d in 0..self.net.devices {
            if self.is_turn_of(d, turn) {
                return Some(d);
            }
        }
        None
    }

    /// The first failed link.
    pub fn failed_link(&self) -> Option<u32> {
        for l in 0..self.net.links() {
            if self.has_failed(Thing::Link(l)) {
                return Some(l);
            }
        }
        None
    }
}
