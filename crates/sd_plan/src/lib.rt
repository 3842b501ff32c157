//! Networks and plans: topologies (`topo`), fault domains (`domain`), and plans: who follows whom,
//! over which link, and what each device is told.
#![tactic(auto)]

pub mod domain;
mod flags;
mod hops;
mod index;
mod indexed;
mod lists;
mod paths;
mod structure;
mod table;
pub mod topo;

pub use flags::present;
pub use hops::{backup_of, primary_of};
pub use index::{Span, WalkIndex};
pub use indexed::IndexedPlan;
pub use lists::{DeviceList, List, RowList, ThingList, empty_lists};
pub use paths::{epath, path};
use sd_num::{Bounds, Rates};
pub use structure::{Rule, structure_breach};
pub use table::{PlanTable, Row};

/// A parent, and the link to it.
#[derive(Clone, Copy, Debug, PartialEq, Eq)]
pub struct Hop {
    pub parent: u32,
    pub link: u32,
}

/// What a plan says of one device: whom it follows, and whom it moves to when it hears nothing.
#[derive(Clone, Copy, Debug, PartialEq, Eq)]
pub struct PlanRow {
    pub primary: Hop,
    pub backup: Option<Hop>,
}

/// The devices and links that a plan leaves out, each ascending without repeats.
#[derive(Drop)]
pub struct Absent {
    pub devices: DeviceList,
    pub links: DeviceList,
}

/// A synchronisation plan. The waits are counter times in ps, at most 2^60.
#[derive(Drop)]
pub struct Plan {
    pub root: u32,
    pub backup_root: u32,
    /// How long the backup root hears nothing before it moves to its backup.
    pub wait_first: u64,
    /// How long it hears nothing there before it takes over.
    pub wait_second: u64,
    /// How long any other device hears nothing before it moves to its backup.
    pub wait: u64,
    pub absent: Absent,
    pub rows: RowList,
}

/// What a device is in a plan.
#[derive(Clone, Copy, Debug, PartialEq, Eq)]
pub enum Role {
    Root,
    BackupRoot,
    Ordinary,
}

/// A parent, the link to it, and the correction of what comes from it.
#[derive(Clone, Copy, Debug, PartialEq, Eq)]
pub struct Edge {
    pub parent: u32,
    pub link: u32,
    pub bounds: Bounds,
}

/// What a device is told of a plan.
#[derive(Clone, Copy, Debug, PartialEq, Eq)]
pub struct Duty {
    pub epoch: u32,
    pub role: Role,
    pub primary: Option<Edge>,
    pub backup: Option<Edge>,
    pub period: u64,
    pub wait_first: u64,
    pub wait_second: u64,
    pub wait: u64,
    pub rates: Rates,
}

/// A device below, and the link to it.
#[derive(Clone, Copy, Debug, PartialEq, Eq)]
pub struct End {
    pub link: u32,
    pub device: u32,
}
