//! Fault domains: listed sets of things, each device alone and each link alone; and failures,
//! the sets of things that have failed.
mod failing;
mod failure;
mod holding;
mod number_set;

pub use failure::Failure;
pub use holding::{holds_device, holds_link, within_one};
pub use number_set::NumberSet;

/// A fault domain. Domains are ordered: the listed ones, each device alone, each link alone, each
/// kind by number.
#[derive(Clone, Copy, Debug, PartialEq, Eq)]
pub enum DomainId {
    /// The domain that the topology lists at this place, from 0.
    Listed(u32),
    /// One device alone.
    Device(u32),
    /// One link alone.
    Link(u32),
}
