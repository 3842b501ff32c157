//! What the tests of fleets and replays share: worked fleets (`examples`), nodes of other kinds
//! than a device (`kinds`), and a plain slow program that says what a fleet is to do (`plain`).
#![tactic(auto)]

pub mod examples;
pub mod kinds;
pub mod plain;
