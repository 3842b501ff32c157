//! What a monitor of lost messages keeps: the flights that wait for their receipt, up to which
//! number failures interrupted them, and runs of spoiled rounds. Each call takes constant or
//! logarithmic time on average, and only `new` and `ready` take memory.
ghost use Rattle.std.specs.Prelude.{◌≡◌};
ghost use Rattle.sd_monitors.specs.loss.flights.Kept.{kept_of};

mod interruptions;
mod orderly;
mod runs;
mod unordered;
mod waiting;

pub use interruptions::Interruptions;
pub use runs::Runs;
use sd_device::msg::{Flight, Stamp};
pub use waiting::Waiting;

/// What is kept of a flight that waits: half of what a flight has.
#[derive(Clone, Copy)]
pub struct WaitingFlight {
    pub number: u64,
    /// By when it comes over a link that keeps its delay bounds.
    pub due: u64,
    /// The age of its message.
    pub stamp: Stamp,
    pub link: u32,
    pub sender: u32,
    pub receiver: u32,
}

impl WaitingFlight {
    /// What is kept of this flight.
    #[inline(always)]
    pub fn of(flight: &Flight) -> WaitingFlight
        ensures { result ≡ kept_of flight.now }
    {
        WaitingFlight {
            number: flight.number,
            due: flight.due,
            stamp: flight.message.stamp,
            link: flight.link,
            sender: flight.sender,
            receiver: flight.receiver,
        }
    }
}
