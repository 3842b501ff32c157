//! Small networks with several plans each, for the tests of fleets.
//!
//! Their periods, waits and delays are short, so that a history of some hundred events has
//! silences and changes of plan. The plans have the right structure; the waits are too short for
//! them to be accepted by the checker.
mod fleets;
mod plans;
mod texts;

pub use fleets::{NoFleet, fleet_of, fleet_over};
pub use plans::{NoPlans, plans_of};
pub use texts::{Example, FABRIC, PAIR, SQUARE, TRIANGLE};
