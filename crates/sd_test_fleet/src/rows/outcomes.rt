//! What comes of events.

use sd_device::msg::Flight;
use sd_fleet::Outcome;
use sd_num::clock::Report;

/// Nothing comes of it, and the named device does not act as root.
pub(super) fn quiet() -> Outcome {
    Outcome::nothing()
}

/// Nothing comes of it, and the named device acted as root before.
pub(super) fn acting() -> Outcome {
    Outcome {
        acted: true,
        ..quiet()
    }
}

/// This many messages go, the first with this number.
pub(super) fn sends(first_sent: u64, sent: u32) -> Outcome {
    Outcome {
        first_sent,
        sent,
        ..quiet()
    }
}

/// A message came.
pub(super) fn takes(flight: Flight) -> Outcome {
    Outcome {
        taken: Some(flight),
        ..quiet()
    }
}

/// The device reports.
pub(super) fn reports(device: u32, clock: u128, eps: u128) -> Outcome {
    Outcome {
        report: Some((device, Report { clock, eps })),
        ..quiet()
    }
}

/// The recording ends.
pub(super) fn ends() -> Outcome {
    Outcome {
        ended: true,
        ..quiet()
    }
}
