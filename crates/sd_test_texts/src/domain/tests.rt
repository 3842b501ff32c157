//! Fault domains of a small network, and sets of numbers.
mod domains;
mod numbers;
