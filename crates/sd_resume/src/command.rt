//! `resume` of the second program: whether an opening stands for a schedule and is honest. Then all
//! later events are the same after both, and what breaks after it is broken after the schedule.
//!
//! Both texts are replayed, and `sd_resume` compares the fleets of devices and the premises.
mod comparing;
mod lines;
mod playing;
mod proposal;
mod refusals;
mod resuming;
mod taking;

pub use resuming::{Files, resume};
