//! Tests of the monitors of premises (`premises`), and of the world that they stand on (`world`).
#![tactic(auto)]

mod premises;
mod world;
