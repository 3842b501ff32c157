//! What an onlooker sees of an event.

use sd_device::msg::Flight;
use sd_sched::Event;

/// What is seen of an accepted event, from outside the devices.
#[derive(Clone, Copy)]
pub struct Seen<'a> {
    pub event: Event,
    /// The flight that the event received.
    pub taken: Option<Flight>,
    /// The flights that it sent and that reach, by ascending number.
    pub sent: &'a [Flight],
    /// The device that entered the staged plan with it.
    pub activated: Option<u32>,
    /// Whether the named device acted as root before.
    pub acted: bool,
    /// Whether the window closed with it.
    pub closed: bool,
}
