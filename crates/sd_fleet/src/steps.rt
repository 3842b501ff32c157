//! One step: what an accepted event makes of a fabric, once its device has replied.
ghost use Rattle.std.specs.Prelude.{◌≡◌, ◌≢◌, ◌≤◌, ◌<◌, ◌+◌, ◌&&◌, not, None, IsTrue, IfSome, length, OnOk, OnErr, if◌then◌else◌};
ghost use Rattle.sd_sched.specs.Events.{is_end_event};
ghost use Rattle.sd_sched.specs.Spelled.{is_within};
ghost use Rattle.sd_world.specs.membership.Memberships as memberships;
ghost use Rattle.sd_world.specs.membership.Memberships.{acts_at as acts_of, can_close_in, ends_below};
ghost use Rattle.sd_fleet.specs.Causes.{refusal_in};
ghost use Rattle.sd_fleet.specs.Doing.{IsReplyTo};
ghost use Rattle.sd_fleet.specs.Room.{ends_in, most_sent_in};
ghost use Rattle.sd_fleet.specs.Sound.{IsSound};
ghost use Rattle.sd_fleet.specs.Stepping.{IsAfter, outcome_in, report_in, OnlyRoomGrew, acts_named, is_new_named, closed_if_can};

use crate::deliveries::{deliver, sweep};
use crate::messages::send;
use crate::{Fabric, Outcome, Reply};
use sd_num::NoMemory;
use sd_num::clock::Report;
use sd_sched::Event;
use sd_world::membership::Membership;
use std::alloc::Global;

/// Notes the report of an ask, with the device that was asked.
// A report is written where there is one alone, since most events have none.
fn note_report(noted: &mut Option<(u32, Report)>, event: &Event, reply: &Reply)
    ensures { noted.new ≡ report_in event.now reply.now }
{
    *noted = None;
    if let Event::Ask { device, .. } = *event {
        if let Some(report) = reply.report {
            *noted = Some((device, report));
        }
    }
}

impl Fabric {
    /// How many messages the event sends at most: for a `tick` or a `recv` the ends below the named
    /// device in the plan in force and in the staged one together.
    #[inline(always)]
    pub fn most_sent(&self, event: &Event) -> usize
        ensures { result ≡ most_sent_in self.now event.now }
    {
        match *event {
            Event::Tick { device, .. } | Event::Recv { device, .. } => self.ends_of(device),
            _ => 0,
        }
    }

    /// How many ends lie below the device in the plan in force and in the staged one.
    #[inline(always)]
    pub fn ends_of(&self, d: u32) -> usize
        ensures { result ≡ ends_in self.now d }
    {
        if d >= self.topology.devices() {
            return 0;
        }
        let in_force = self
            .membership
            .ends_below(self.membership.world().epoch(), d)
            .len();
        in_force + self.staged_ends(d)
    }

    /// How many ends lie below the device in the staged plan, if there is one.
    fn staged_ends(&self, d: u32) -> usize
        requires { d < length self.now.net.devices }
        ensures { result
            ≡ length (ends_below self.now.membership (self.now.membership.world.epoch + 1) d) }
    {
        if !self.membership.world().window().is_open() {
            return 0;
        }
        self.membership
            .ends_below(self.membership.world().epoch() + 1, d)
            .len()
    }

    /// Makes room for this many messages. Only this takes memory.
    #[inline(always)]
    pub fn ready(&mut self, alloc: Global, messages: usize) -> Result<(), NoMemory>
        ensures room { OnOk result (messages ≤ self.new.book.room) }
        ensures memory { OnErr result (messages ≢ 0) }
        ensures others { OnlyRoomGrew self.old self.new }
        ensures sound { IsSound self.new }
    {
        match messages {
            0 => Ok(()),
            _ => self.book.ready(alloc, messages),
        }
    }

    /// Notes an event that is not refused, to which its device replied this. What comes of it is
    /// written into an outcome that the caller lends.
    pub fn note(&mut self, event: &Event, reply: &Reply, outcome: &mut Outcome)
        requires accepted { refusal_in self.old event.now ≡ None }
        requires within { IsTrue (is_within event.now) }
        requires tells { IsReplyTo event.now reply.now }
        requires room { most_sent_in self.old event.now ≤ self.old.book.room }
        ensures after { IsAfter self.old event.now reply.now self.new }
        ensures comes { outcome.new ≡ outcome_in self.old event.now reply.now }
        ensures sound { IsSound self.new }
    {
        let device = event.device();
        outcome.acted = acts(&self.membership, device);
        let was_new = is_new(&self.membership, device);
        deliver(&mut self.book, event, &mut outcome.taken);
        let sent = send(
            &self.topology,
            &self.membership,
            &mut self.book,
            event,
            reply,
        );
        outcome.first_sent = sent.first;
        outcome.sent = sent.count;
        sweep(&mut self.book, event);
        self.membership.observe(event, &reply.answers);
        let is_new_now = is_new(&self.membership, device);
        outcome.activated = entering(device, was_new, is_new_now);
        outcome.closed = close(&mut self.membership);
        outcome.ended = ends(event);
        note_report(&mut outcome.report, event, reply);
    }
}

/// The device, where it entered the staged plan.
fn entering(device: Option<u32>, was_new: bool, is_new: bool) -> Option<u32>
    ensures { result ≡ (if is_new && not was_new then device else None) }
{
    if is_new && !was_new { device } else { None }
}

/// Whether the event is the end.
fn ends(event: &Event) -> bool
    ensures { result ≡ is_end_event event.now }
{
    matches!(event, Event::End { .. })
}

/// Whether the device acts as root.
fn acts(membership: &Membership, device: Option<u32>) -> bool
    requires { IfSome device (λ d. d < length membership.now.answers) }
    ensures { result ≡ acts_named membership.now device }
{
    match device {
        Some(d) => acts_at(membership, d),
        None => false,
    }
}

/// The same of the device with a number.
#[inline(always)]
pub(crate) fn acts_at(membership: &Membership, d: u32) -> bool
    requires { d < length membership.now.answers }
    ensures { result ≡ acts_of membership.now d }
{
    match membership.answered(d) {
        Some(answered) => answered.acts,
        None => false,
    }
}

/// Whether a plan is staged that the device follows.
fn is_new(membership: &Membership, device: Option<u32>) -> bool
    requires { IfSome device (λ d. d < length membership.now.answers) }
    ensures { result ≡ is_new_named membership.now device }
{
    let Some(d) = device else {
        return false;
    };
    membership.world().window().is_open() && membership.follows(membership.world().epoch() + 1, d)
}

/// Closes the window where it can close, and says whether it did.
fn close(membership: &mut Membership) -> bool
    requires { memberships.IsSound membership.old }
    ensures closed { result ≡ can_close_in membership.old }
    ensures membership { membership.new ≡ closed_if_can membership.old }
    ensures sound { memberships.IsSound membership.new }
{
    if !membership.can_close() {
        return false;
    }
    membership.close();
    true
}
