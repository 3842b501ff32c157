//! A search for plans: the greedy rule under each pair of roots, and then moves from draft to draft
//! (`draft`). Whatever it makes is judged by the checker.
#![tactic(auto)]

mod candidates;
pub mod draft;
mod found;
mod moves;
mod rating;
mod searching;
mod trials;
mod weight;

pub use found::Found;
pub use searching::{Settings, search};
