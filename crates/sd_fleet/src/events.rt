//! What an event asks of its device, by its kind alone.
ghost use Rattle.std.specs.Prelude.{◌≡◌};
ghost use Rattle.sd_history.specs.Refusals as refusals;

use sd_sched::Event;

/// Whether the event makes its device.
pub(crate) fn makes_some(event: &Event) -> bool
    ensures { result ≡ refusals.makes_some event.now }
{
    match *event {
        Event::Start { .. } | Event::Join { .. } => true,
        _ => false,
    }
}
