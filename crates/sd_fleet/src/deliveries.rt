//! What an event makes of the flights that were on their way before it.
ghost use Rattle.std.specs.Prelude.{◌≡◌, ◌≤◌};
ghost use Rattle.sd_history.specs.Things as things;
ghost use Rattle.sd_device.specs.msg.Books.{AreGiven};
ghost use Rattle.sd_history.specs.flights.Flights.{without_swept};
ghost use Rattle.sd_fleet.specs.Stepping.{CanDeliver, delivered, taken_from};

use sd_device::msg::{Flight, FlightBook, TakeFault};
use sd_sched::Event;
use sd_world::world::failure_of;

/// Leaves out what ended before the event, and takes or loses the flight of its message. The
/// flight that it receives is written where the caller wants it.
// A flight is large, and most events receive none.
pub(crate) fn deliver(book: &mut FlightBook, event: &Event, taken: &mut Option<Flight>)
    requires given { AreGiven book.old }
    requires message { CanDeliver book.old event.now }
    ensures given { AreGiven book.new }
    ensures flight { taken.new ≡ taken_from book.old event.now }
    ensures flights { book.new.flights ≡ delivered event.now book.old.flights }
    ensures last { book.new.last ≡ book.old.last }
    ensures size { book.new.size ≡ book.old.size }
    ensures room { book.old.room ≤ book.new.room }
{
    book.purge(event.reference());
    match *event {
        Event::Recv { message, .. } => *taken = Some(book.take_found(message)),
        Event::Lose { message, .. } => {
            let _: Result<(), TakeFault> = book.lose(message);
            *taken = None;
        }
        _ => *taken = None,
    }
}

/// Spends the flights that the event cuts off.
pub(crate) fn sweep(book: &mut FlightBook, event: &Event)
    requires given { AreGiven book.old }
    ensures given { AreGiven book.new }
    ensures flights { book.new.flights
        ≡ without_swept (things.failure_of event.now) book.old.flights }
    ensures last { book.new.last ≡ book.old.last }
    ensures size { book.new.size ≡ book.old.size }
    ensures room { book.old.room ≤ book.new.room }
{
    if let Some(thing) = failure_of(event) {
        book.sweep(thing);
    }
}
