//! The timing condition and the condition on the two roots.
mod fallback;
mod things;
mod waits;

pub use fallback::{root_breach, root_breach_in};
pub use waits::{greatest_up, silence_and_tick, timing_breach};

/// The first timing inequality that a plan breaks, with both sides in picoseconds.
#[derive(Clone, Copy, Debug, PartialEq, Eq)]
pub struct TimingBreach {
    /// From 1 to 5.
    pub rule: u8,
    pub left: u128,
    pub right: u128,
}
