//! The monitors of the premises, one after another.
mod clocks;
mod flights;
mod rounds;
mod whole;
