//! What is kept of a history so far: the world in registers (`world`), and its devices and plans
//! (`membership`). The fabric, the fleet and the monitors of premises stand on it.
#![tactic(auto)]

pub mod membership;
pub mod world;
