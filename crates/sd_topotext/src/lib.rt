//! Topologies as texts: read from TOML with every check, and printed, with `toml`.
#![tactic(auto)]

mod fault;
mod print;
mod read;

pub use fault::{Key, Kind, Place, TopoFault};
pub use print::topology_text;
pub use read::read_topology;
