//! Messages over the ends below their sender.
ghost use Rattle.std.specs.Prelude.{◌≡◌, ◌≤◌, ◌<◌, ◌+◌, ◌-◌, ◌^◌, ◌++◌, nat_eq, length, filter, IfSome, if◌then◌else◌};
ghost use Rattle.sd_plan.specs.topo.Topologies.{network};
ghost use Rattle.sd_plan.specs.topo.Network.{Each};
ghost use Rattle.sd_plan.specs.topo.Limits.{IsNetwork};
ghost use Rattle.sd_device.specs.msg.Books.{AreGiven, with_sent};
ghost use Rattle.sd_sched.specs.Events.{reference_of, device_of};
ghost use Rattle.sd_world.specs.membership.Plans.{IsEnd};
ghost use Rattle.sd_fleet.specs.Registers.{kept, size_of};
ghost use Rattle.sd_fleet.specs.Sound.{IsSound};
ghost use Rattle.sd_fleet.specs.Sending.{flight_over, flights_over, sent_by, sent_in, Covers};
ghost use Rattle.sd_fleet.specs.Outcomes.{first_number};

use crate::Reply;
use sd_device::Effect;
use sd_device::msg::{Flight, FlightBook, Message};
use sd_plan::End;
use sd_plan::topo::{Thing, Topology};
use sd_sched::Event;
use sd_world::membership::Membership;
use sd_world::world::World;

/// A message at the moment when it is sent.
#[derive(Clone, Copy)]
pub(crate) struct Sending {
    /// The reference time, in ps.
    pub reference: u64,
    pub sender: u32,
    pub message: Message,
}

/// Which messages an event sent: they are numbered on from the first.
#[derive(Clone, Copy, Debug, PartialEq, Eq)]
pub struct Sent {
    /// The number of the first, 0 where there is none.
    pub first: u64,
    pub count: u32,
}

impl Sent {
    /// No messages.
    pub fn none() -> Sent
        ensures first { result.first ≡ 0 }
        ensures count { result.count ≡ 0 }
    {
        Sent { first: 0, count: 0 }
    }

    /// One more, which has this number.
    fn add(&mut self, number: u64)
        requires { self.old.count < 2 ^ 32 - 1 }
        ensures first { self.new.first
            ≡ (if nat_eq self.old.count 0 then number else self.old.first) }
        ensures count { self.new.count ≡ self.old.count + 1 }
    {
        if self.count == 0 {
            self.first = number;
        }
        self.count += 1;
    }
}

/// Links that may have failed, and devices that may not be up.
#[derive(Drop)]
pub(crate) struct Router<'a> {
    pub topology: &'a Topology,
    pub world: &'a World,
}

impl Router<'_> {
    /// Sends the message over each of the ends, in their order.
    #[inline(never)]
    fn send(&self, book: &mut FlightBook, ends: &[End], sending: &Sending) -> Sent
        requires covers { Covers (network self.now.topology.now) self.now.world.now }
        requires ends { Each (IsEnd (network self.now.topology.now)) ends.now }
        requires few { length ends.now ≤ 2 ^ 15 }
        requires reference { sending.now.reference ≤ 2 ^ 60 }
        requires room { length ends.now ≤ book.old.room }
        requires numbers { book.old.last ≤ 2 ^ 41 }
        requires given { AreGiven book.old }
        requires size { book.old.size ≡ size_of (network self.now.topology.now) }
        ensures given { AreGiven book.new }
        ensures flights { book.new.flights ≡ book.old.flights
            ++ filter (λ f. f.reaches)
            (flights_over (network self.now.topology.now) self.now.world.now sending.now
            (book.old.last + 1) ends.now) }
        ensures last { book.new.last ≡ book.old.last + length ends.now }
        ensures size { book.new.size ≡ book.old.size }
        ensures first { result.first
            ≡ first_number
            (flights_over (network self.now.topology.now) self.now.world.now sending.now
            (book.old.last + 1) ends.now) }
        ensures count { result.count ≡ length ends.now }
    {
        let mut sent = Sent::none();
        for end in ends {
            let number = self.send_one(book, end, sending);
            sent.add(number);
        }
        sent
    }

    /// Sends the message over one end, under the next number.
    fn send_one(&self, book: &mut FlightBook, end: &End, sending: &Sending) -> u64
        requires covers { Covers (network self.now.topology.now) self.now.world.now }
        requires end { IsEnd (network self.now.topology.now) end.now }
        requires reference { sending.now.reference ≤ 2 ^ 60 }
        requires room { 1 ≤ book.old.room }
        requires numbers { book.old.last < 2 ^ 64 - 1 }
        requires size { book.old.size ≡ size_of (network self.now.topology.now) }
        ensures given { AreGiven book.new }
        ensures number { result ≡ book.old.last + 1 }
        ensures flights { book.new.flights
            ≡ with_sent book.old.flights
            (flight_over (network self.now.topology.now) self.now.world.now sending.now result
            end.now) }
        ensures last { book.new.last ≡ result }
        ensures size { book.new.size ≡ book.old.size }
        ensures room { book.old.room ≤ book.new.room + 1 }
    {
        let flight = self.flight(end, sending);
        book.send(flight)
    }

    /// The flight over one end, before it has its number.
    fn flight(&self, end: &End, sending: &Sending) -> Flight
        requires covers { Covers (network self.now.topology.now) self.now.world.now }
        requires end { IsEnd (network self.now.topology.now) end.now }
        requires reference { sending.now.reference ≤ 2 ^ 60 }
        ensures { result
            ≡ flight_over (network self.now.topology.now) self.now.world.now sending.now 0 end.now }
    {
        let most = self.topology.delay(end.link, end.device).max;
        let reaches = !self.world.has_failed(Thing::Link(end.link)) && self.world.is_up(end.device);
        Flight {
            number: 0,
            link: end.link,
            sender: sending.sender,
            receiver: end.device,
            sent_at: sending.reference,
            due: sending.reference + most,
            last: sending.reference + 2 * most,
            reaches,
            message: sending.message,
        }
    }
}

/// What a device sends at a reference time, in the plan with a number, where this is its effect.
// Inlined, since most effects send nothing, and most devices have nobody below them: no message is
// copied then.
#[inline(always)]
pub(crate) fn send_by(
    topology: &Topology,
    membership: &Membership,
    book: &mut FlightBook,
    reference: u64,
    sender: u32,
    epoch: u32,
    effect: &Effect,
) -> Sent
    requires sound { IsSound (kept (network topology.now) membership.now book.old) }
    requires known { sender < length (network topology.now).devices }
    requires reference { reference ≤ 2 ^ 60 }
    requires room { length (sent_by (kept (network topology.now) membership.now book.old) reference
        sender epoch effect.now) ≤ book.old.room }
    ensures given { AreGiven book.new }
    ensures flights { book.new.flights ≡ book.old.flights
        ++ filter (λ f. f.reaches)
        (sent_by (kept (network topology.now) membership.now book.old) reference sender epoch
        effect.now) }
    ensures last { book.new.last ≡ book.old.last + length
        (sent_by (kept (network topology.now) membership.now book.old) reference sender epoch
        effect.now) }
    ensures size { book.new.size ≡ book.old.size }
    ensures first { result.first
        ≡ first_number
        (sent_by (kept (network topology.now) membership.now book.old) reference sender epoch
        effect.now) }
    ensures count { result.count
        ≡ length (sent_by (kept (network topology.now) membership.now book.old) reference sender
        epoch effect.now) }
{
    let Effect::Send(message) = effect else {
        return Sent::none();
    };
    let ends = membership.ends_below(epoch, sender);
    if ends.is_empty() {
        return Sent::none();
    }
    let sending = Sending {
        reference,
        sender,
        message: *message,
    };
    let router = Router {
        topology,
        world: membership.world(),
    };
    router.send(book, ends, &sending)
}

/// What the named device sends at the event, as it replied.
pub(crate) fn send(
    topology: &Topology,
    membership: &Membership,
    book: &mut FlightBook,
    event: &Event,
    reply: &Reply,
) -> Sent
    requires sound { IsSound (kept (network topology.now) membership.now book.old) }
    requires known { IfSome (device_of event.now) (λ d. d < length (network topology.now).devices) }
    requires reference { reference_of event.now ≤ 2 ^ 60 }
    requires room { length (sent_in (kept (network topology.now) membership.now book.old) event.now
        reply.now) ≤ book.old.room }
    ensures given { AreGiven book.new }
    ensures flights { book.new.flights ≡ book.old.flights
        ++ filter (λ f. f.reaches)
        (sent_in (kept (network topology.now) membership.now book.old) event.now reply.now) }
    ensures last { book.new.last ≡ book.old.last + length
        (sent_in (kept (network topology.now) membership.now book.old) event.now reply.now) }
    ensures size { book.new.size ≡ book.old.size }
    ensures first { result.first
        ≡ first_number
        (sent_in (kept (network topology.now) membership.now book.old) event.now reply.now) }
    ensures count { result.count
        ≡ length (sent_in (kept (network topology.now) membership.now book.old) event.now
        reply.now) }
{
    let Some(sender) = event.device() else {
        return Sent::none();
    };
    let Some(answers) = &reply.answers else {
        return Sent::none();
    };
    send_by(
        topology,
        membership,
        book,
        event.reference(),
        sender,
        answers.epoch,
        &reply.effect,
    )
}
