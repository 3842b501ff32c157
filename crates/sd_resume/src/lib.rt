//! Where one history may be cut and another begins: a call that says of two fleets that all later
//! events are the same after both, or in what they differ; and one that says so of honesty. The law
//! is a folder (`law`), and so is the command (`command`).
//!
//! `agrees` compares what the fleets keep. Where it finds no difference, each run of the second is
//! an opening for each run of the first (`IsOpening` of `sd_resume`), and no message of the
//! first is on its way: so the rules admit the same later events after both, with the same alarms
//! and reports. Where it names a difference, the two differ in that.
//!
//! `is_honest` compares what the monitors of the premises keep. Where it finds nothing, the opening
//! is honest (`IsHonestOpening`): so what breaks after it is broken after the first too. Where
//! it names a fact, the opening is not honest in that.
#![tactic(auto)]

pub mod command;
mod comparing;
mod devices;
mod differences;
mod duties;
mod honesty;
pub mod law;
mod messages;
mod nodes;
mod shift;
mod worlds;

pub use comparing::agrees;
pub use differences::{Difference, Dishonesty, Register};
pub use honesty::is_honest;
pub use shift::Shift;
