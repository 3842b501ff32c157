//! Why there is no plan: reasons that are seen on the network alone, each with a proof that no plan
//! of it is accepted. `why` answers the first of them.
#![tactic(auto)]

mod apart;
mod bridges;
mod candidates;
mod deep;
mod few;
mod first;
mod shared;
mod text;
mod timing;
mod ways;

pub use apart::apart_device;
pub use candidates::few_candidates;
pub use deep::deep_from_all;
pub use few::few_links;
pub use first::why;
pub use shared::shared_domain;
pub use text::why_text;
pub use timing::short_period;
pub use ways::distances;

/// A candidate, a device that is as far from it as any, and how many links lead there at least.
#[derive(Clone, Copy, Debug, PartialEq, Eq)]
pub struct Far {
    pub candidate: u32,
    pub device: u32,
    pub hops: u32,
}

/// Why no plan of a network is accepted.
#[derive(Clone, Copy, Debug, PartialEq, Eq)]
pub enum Reason {
    /// There are fewer than two candidates: this many.
    Candidates(u32),
    /// A way of the greatest depth there and back, and a tick, take as long as a period may be.
    Timing,
    /// This listed domain has all candidates.
    Shared(u32),
    /// No links lead from the first device to this one.
    Apart(u32),
    /// From each candidate some device is farther than the depth; this is so of the first one.
    Deep(Far),
    /// This many links are bridges, and the others are fewer than a plan needs.
    Few(u32),
}
