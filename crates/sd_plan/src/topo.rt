//! A datacenter's topology: devices with their oscillators, links with the delays of both
//! directions, and listed fault domains.
mod copy;
mod parts;
mod seed;
mod topology;

pub use parts::{Group, Names, Parts, Station, add_named};
pub use seed::TextSeed;
pub use topology::Topology;

/// A device or a link, by its number.
#[derive(Clone, Copy, Debug, PartialEq, Eq)]
pub enum Thing {
    Device(u32),
    Link(u32),
}

/// Where the planner may place a device.
#[derive(Clone, Copy, Debug, PartialEq, Eq)]
pub enum Side {
    Root,
    Backup,
}

/// The numbers of a topology.
#[derive(Clone, Copy, Debug, PartialEq, Eq)]
pub struct Params {
    pub ppm: u32,
    pub grain: u64,
    pub period: u64,
    pub tick: u64,
    pub loss: u32,
    pub depth: u32,
}

/// A link: its two ends, and the delay bounds from the first end to the second and back.
#[derive(Clone, Copy, Debug, PartialEq, Eq)]
pub struct LinkEntry {
    pub end_a: u32,
    pub end_b: u32,
    pub min: u64,
    pub max: u64,
    pub back_min: u64,
    pub back_max: u64,
}

/// The delay bounds of one direction.
#[derive(Clone, Copy, Debug, PartialEq, Eq)]
pub struct Delay {
    pub min: u64,
    pub max: u64,
}
