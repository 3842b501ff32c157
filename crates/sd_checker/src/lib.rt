//! The plan checker, with a folder for each condition that takes long to judge (`check_root`,
//! `check_loop`, `check_reach`), and one for whom a domain hits (`check_hit`).
#![tactic(auto)]

mod ancestor;
pub mod check_hit;
pub mod check_loop;
pub mod check_reach;
pub mod check_root;
mod hits;
mod judging;
pub mod order;
mod roots;
mod text;

use crate::check_root::TimingBreach;
pub use judging::check;
use sd_plan::DeviceList;
use sd_plan::domain::DomainId;
use sd_plan::topo::Thing;
pub use text::{accepted_line, refused_line};

/// The first condition that a plan breaks, with what shows it.
#[derive(Drop)]
pub enum Breach {
    Structure { rule: u8, device: u32 },
    Ancestor { device: u32 },
    Timing(TimingBreach),
    Root { domain: DomainId, at: Thing },
    Loop { domain: DomainId, cycle: DeviceList },
    Domain { domain: DomainId, device: u32 },
    Reach { domain: DomainId, chain: DeviceList },
}

/// What the checker says of a plan.
#[derive(Drop)]
pub enum Verdict {
    Accepted,
    Refused(Breach),
}
