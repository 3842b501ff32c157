//! One device: what it keeps, what each call makes of it, what every kind of device states of itself;
//! and messages between devices, with the book of those on their way (`msg`).
#![tactic(auto)]

mod device;
mod exact;
pub mod msg;
mod node;
mod rebases;
mod receipts;
mod registers;
mod turns;
mod wide;

use crate::msg::Message;
pub use device::Device;
pub use exact::ExactNode;
pub use node::Node;
pub use registers::{Mode, Registers};

/// What a call of a device sends to each device below it.
#[derive(Clone, Copy, Debug, PartialEq, Eq)]
pub enum Effect {
    Quiet,
    Send(Message),
}
