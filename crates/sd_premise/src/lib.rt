//! The seven premises that a schedule must keep, judged event by event: what is promised of a fleet
//! holds while none of them is broken. docs/PREMISES.md says what each asks of a fabric.
#![tactic(auto)]

mod inputs;
mod monitors;
mod premises;
mod sets;

pub use premises::Premises;
pub use sd_history::BrokenSet;
pub use sd_monitors::clocks::Seen;
pub use sets::NONE_BROKEN;
