//! Whole picoseconds: decimal numbers, the growth of an uncertainty, what a counter shows at least
//! and at most, the correction of a delay; and estimates of the reference time (`clock`).
#![tactic(auto)]

pub mod clock;
mod decimals;
mod numbers;
mod search;
#[cfg(test)]
mod tests;

pub use decimals::{Leading, leading_number, read_u64};
pub use numbers::{bounds_of, grow, low, up};
pub use search::contains;

/// Memory could not be had.
#[derive(Clone, Copy, Debug, PartialEq, Eq)]
pub struct NoMemory;

/// How far an oscillator may drift.
#[derive(Clone, Copy, Debug, PartialEq, Eq)]
pub struct Rates {
    /// Parts per million of the time that passes.
    pub ppm: u32,
    /// A constant, in picoseconds.
    pub grain: u64,
}

/// The correction of a delay, in picoseconds.
#[derive(Clone, Copy, Debug, PartialEq, Eq)]
pub struct Bounds {
    /// The middle of the least and the greatest delay, rounded down.
    pub mid: u64,
    /// How far the delay may lie from the middle.
    pub half: u64,
}

/// Why bytes are no number.
#[derive(Clone, Copy, Debug, PartialEq, Eq)]
pub enum NumFault {
    /// There is no byte.
    Empty,
    /// The byte at this place, from 0, is the first that is no digit.
    NotDigit(usize),
    /// There are at least two digits, and the first is `0`.
    LeadingZero,
    /// The value exceeds the greatest `u64`.
    TooLarge,
}
