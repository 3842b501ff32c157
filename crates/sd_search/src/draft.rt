//! Drafts of plans: what a search goes over, the greedy rule below a pair of roots, with parallel
//! cables as last choice of a backup, a tally of a draft's breaches, and a drill of it.
mod backups;
mod bounds;
mod breaches;
mod children;
mod draft;
mod drilling;
mod failing;
mod greedy;
mod ground;
mod growth;
mod placing;
mod recovering;
mod struck;
pub mod tables;
mod tally;

pub use backups::Parallel;
pub(crate) use bounds::Bounds;
pub use draft::Draft;
pub(crate) use drilling::DraftDrill;
pub use greedy::{Greedy, Pair};
pub use ground::Ground;
pub use tally::{Change, Tally, place_of, places};
