//! Why an event is refused: the first of seventeen causes that holds.
ghost use Rattle.std.specs.Prelude.{◌≡◌, ◌<◌, length, None, IfSome, true};
ghost use Rattle.sd_sched.specs.Events.{device_of, link_of};
ghost use Rattle.sd_fleet.specs.Causes.{first_of, place_causes, message_causes, device_causes, window_causes, late_causes, refusal_in, flight_at};
ghost use Rattle.sd_fleet.specs.Calm.{is_on_time, is_calm};

use crate::Fabric;
use sd_device::msg::TakeFault;
use sd_history::ApplyFault;
use sd_sched::Event;
use sd_world::world::message_of;

impl Fabric {
    /// The first cause for which an event is refused, if there is one.
    #[inline(always)]
    pub fn refusal(&self, event: &Event) -> Option<ApplyFault>
        ensures { result ≡ refusal_in self.now event.now }
    {
        if self.is_calm(event) {
            return None;
        }
        self.first_refusal(event)
    }

    /// Whether the event is a tick or a receipt against which nothing stands. Nearly all events
    /// are, so that no cause is looked for.
    #[inline(always)]
    fn is_calm(&self, event: &Event) -> bool
        ensures calm { result ≡ is_calm self.now event.now }
        ensures accepted { result ≡ true → refusal_in self.now event.now ≡ None }
    {
        match *event {
            Event::Tick {
                reference,
                device,
                counter,
            } => self
                .membership
                .world()
                .admits_call(reference, device, counter),
            Event::Recv {
                reference,
                device,
                counter,
                message,
            } => {
                self.membership
                    .world()
                    .admits_call(reference, device, counter)
                    && self.is_on_time(reference, device, message)
            }
            _ => false,
        }
    }

    /// Whether the message is on its way to the device, and has not ended at the reference time.
    #[inline(always)]
    pub(crate) fn is_on_time(&self, reference: u64, d: u32, message: u64) -> bool
        ensures { result ≡ is_on_time reference d (flight_at self.now message) }
    {
        match self.book.find(message) {
            Ok(flight) => flight.last >= reference && flight.receiver == d,
            Err(_) => false,
        }
    }

    /// The first cause that holds, one after the other.
    // Never inlined, so that a calm event pays nothing for what only the causes need.
    #[cold]
    #[inline(never)]
    fn first_refusal(&self, event: &Event) -> Option<ApplyFault>
        ensures { result ≡ refusal_in self.now event.now }
    {
        let place = self.place_refusal(event);
        if place.is_some() {
            return place;
        }
        let message = self.message_refusal(event);
        if message.is_some() {
            return message;
        }
        let device = self.device_refusal(event);
        if device.is_some() {
            return device;
        }
        let window = self.window_refusal(event);
        if window.is_some() {
            return window;
        }
        self.late_refusal(event)
    }

    /// What the event names is unknown, or has failed.
    fn place_refusal(&self, event: &Event) -> Option<ApplyFault>
        ensures { result ≡ first_of (place_causes self.now event.now) }
    {
        if self.names_unknown_device(event) {
            return Some(ApplyFault::UnknownDevice);
        }
        if self.names_unknown_link(event) {
            return Some(ApplyFault::UnknownLink);
        }
        if self.names_dead_device(event) {
            return Some(ApplyFault::DeadDevice);
        }
        if self.names_dead_link(event) {
            return Some(ApplyFault::DeadLink);
        }
        None
    }

    /// The message is unknown, spent, or for another device.
    fn message_refusal(&self, event: &Event) -> Option<ApplyFault>
        ensures { result ≡ first_of (message_causes self.now event.now) }
    {
        let number = message_of(event)?;
        match self.book.find(number) {
            Err(TakeFault::Unknown) => Some(ApplyFault::UnknownMessage),
            Err(_) => Some(ApplyFault::SpentMessage),
            Ok(flight) if flight.last < event.reference() => Some(ApplyFault::SpentMessage),
            Ok(flight) => match event.device() {
                Some(d) if d != flight.receiver => Some(ApplyFault::WrongDevice),
                _ => None,
            },
        }
    }

    /// The event comes too early for what was read before, or its device is not as it asks.
    fn device_refusal(&self, event: &Event) -> Option<ApplyFault>
        requires { IfSome (device_of event.now) (λ d. d < length self.now.net.devices) }
        ensures { result ≡ first_of (device_causes self.now event.now) }
    {
        if self.time_falls(event) {
            return Some(ApplyFault::TimeFalls);
        }
        if self.counter_falls(event) {
            return Some(ApplyFault::CounterFalls);
        }
        if self.is_not_started(event) {
            return Some(ApplyFault::NotStarted);
        }
        if self.starts_twice(event) {
            return Some(ApplyFault::StartedTwice);
        }
        None
    }

    /// No plan is left, or the window does not allow the event.
    fn window_refusal(&self, event: &Event) -> Option<ApplyFault>
        requires { IfSome (device_of event.now) (λ d. d < length self.now.net.devices) }
        ensures { result ≡ first_of (window_causes self.now event.now) }
    {
        if self.lacks_plan(event) {
            return Some(ApplyFault::NoPlanLeft);
        }
        if self.is_out_of_order(event) {
            return Some(ApplyFault::WindowOrder);
        }
        None
    }

    /// The history has its end, the thing is not failed, the device no member, or events have run
    /// out.
    fn late_refusal(&self, event: &Event) -> Option<ApplyFault>
        requires device { IfSome (device_of event.now) (λ d. d < length self.now.net.devices) }
        requires link { IfSome (link_of event.now) (λ l. l < length self.now.net.links) }
        ensures { result ≡ first_of (late_causes self.now event.now) }
    {
        if self.membership.world().has_ended() {
            return Some(ApplyFault::AfterEnd);
        }
        if self.mends_whole(event) {
            return Some(ApplyFault::NotFailed);
        }
        if self.names_no_member(event) {
            return Some(ApplyFault::NotMember);
        }
        if self.is_too_late() {
            return Some(ApplyFault::TooManyEvents);
        }
        None
    }
}
