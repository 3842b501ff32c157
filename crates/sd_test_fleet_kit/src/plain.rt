//! A plain slow fleet: it keeps the whole list of its events and of its messages, and looks all
//! that it needs up in them. Tests compare fleets and replays with it; it is for tests alone.
//!
//! No function has an `ensures`: a wrong body here makes a test above fail.
mod flights;
mod happening;
mod history;
mod lives;
mod net;
mod numbers;
mod things;
mod turns;
mod windows;

pub use history::{NodeKind, Plain, Sent, Step, Subject, Transition};
pub use net::Net;
pub use numbers::Numbers;
pub use things::{failed_by, mended_by, received_by, used_by};
pub use turns::Turn;
pub use windows::Stage;
