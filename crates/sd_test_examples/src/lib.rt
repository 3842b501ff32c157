//! Small networks and their plans, for the tests of the other crates.
#![tactic(auto)]

mod networks;
mod plans;
#[cfg(test)]
mod tests;
mod texts;

pub use networks::{NoExample, fabric, square, topology_of};
pub use plans::{fabric_plan, row, square_plan};
pub use texts::{
    DRIFTLESS, DRIFTLESS_PLAN, FABRIC, FABRIC_GREEDY, FABRIC_PLAN, FABRIC_RENEWED, SQUARE,
    SQUARE_PLAN, SQUARE_TRAY, TRIANGLE, TRIANGLE_2, TRIANGLE_PLAN,
};
