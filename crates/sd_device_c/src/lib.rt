//! The core of a device, for C: each call of `Device` on structs of plain numbers that the caller
//! holds. Nothing is allocated.
//!
//! Each call answers 0 where it was made. Else it changes nothing, and its answer names what was
//! wrong (`faults`).
#![tactic(auto)]

mod checks;
mod crc;
mod faults;
mod keeping;
mod limits;
mod makings;
mod packing;
mod pauses;
mod plain;
mod ports;
mod queries;
mod reading;
mod rebases;
mod steps;
#[cfg(test)]
mod tests;
mod unpacking;
mod version;
mod writing;
