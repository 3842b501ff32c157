//! What an event brings that should not be.

use crate::alarms::Alarms;
use sd_history::BrokenSet;

/// The premises that break with an event, and the alarms that are new with it.
#[derive(Clone, Copy)]
pub(crate) struct Trouble {
    pub(crate) broken: BrokenSet,
    pub(crate) alarms: Alarms,
}
