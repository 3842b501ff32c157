//! What the monitor of each premise knows: of clocks (`clocks`), of lost messages (`loss`), and of
//! failures and renewals (`renewal`).
#![tactic(auto)]

pub mod clocks;
pub mod loss;
pub mod renewal;
