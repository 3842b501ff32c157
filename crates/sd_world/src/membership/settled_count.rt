//! The count of those that have to settle before a window closes.
ghost use Rattle.std.specs.Prelude.{◌≡◌, ◌&&◌, nat_le, nat_eq, true, ◌<◌, ◌≤◌, ◌+◌, ◌^◌, length, IfSome, if◌then◌else◌};
ghost use Rattle.sd_sched.specs.Events.{device_of, is_stage};
ghost use Rattle.sd_world.specs.membership.Memberships.{IsSound};

use crate::membership::AnswerSummary;
use crate::membership::plans::{NumberedPlan, is_member};
use crate::world::World;
use sd_sched::Event;

/// Members of the staged plan.
#[derive(Clone, Copy)]
pub struct SettledCount {
    /// Those that are up.
    pub present: u32,
    /// Those of them that follow the staged plan and are sealed.
    pub settled: u32,
}

impl SettledCount {
    ghost use Rattle.sd_world.specs.membership.Counts.{none_counted, add_counts};

    /// None at all.
    pub fn none() -> SettledCount
        ensures { result ≡ none_counted }
    {
        SettledCount {
            present: 0,
            settled: 0,
        }
    }

    /// Whether there is somebody, and all have settled.
    pub fn all_settled(self) -> bool
        ensures { result ≡ (nat_le 1 self.present && nat_eq self.settled self.present) }
    {
        self.present >= 1 && self.settled == self.present
    }

    /// Both counts together.
    fn plus(self, other: SettledCount) -> SettledCount
        requires present { self.present + other.present < 2 ^ 32 }
        requires settled { self.settled + other.settled < 2 ^ 32 }
        ensures { result ≡ add_counts self other }
    {
        SettledCount {
            present: self.present + other.present,
            settled: self.settled + other.settled,
        }
    }

    /// What is left without those of the other.
    fn minus(self, other: SettledCount) -> SettledCount
        requires present { other.present ≤ self.present }
        requires settled { other.settled ≤ self.settled }
        ensures { add_counts result other ≡ self }
    {
        SettledCount {
            present: self.present - other.present,
            settled: self.settled - other.settled,
        }
    }
}

/// What a count looks at.
#[derive(Clone, Copy)]
pub struct MemberStates<'a> {
    pub plans: &'a [NumberedPlan],
    pub world: &'a World,
    pub answers: &'a [Option<AnswerSummary>],
}

impl MemberStates<'_> {
    ghost use Rattle.sd_world.specs.world.Registers.{is_open};
    ghost use Rattle.sd_world.specs.membership.Plans.{IsNumber};
    ghost use Rattle.sd_world.specs.membership.Memberships.{staged_number, live_at, is_present, has_settled_at};
    ghost use Rattle.sd_world.specs.membership.Counts.{seen_by, count_at, count_named, settled_count_of, add_counts};

    /// The number of the staged plan.
    fn staged(&self) -> u32
        requires sound { IsSound (seen_by self.now) }
        requires open { is_open self.now.world.now.window ≡ true }
        ensures number { result ≡ staged_number (seen_by self.now) }
        ensures known { IsNumber self.now.plans.now result }
    {
        self.world.epoch() + 1
    }

    /// What the device answers, where it is up.
    pub fn answered(&self, d: u32) -> Option<AnswerSummary>
        requires sound { IsSound (seen_by self.now) }
        requires range { d < length self.now.answers.now }
        ensures { result ≡ live_at (seen_by self.now) d }
    {
        if self.world.is_up(d) {
            self.answers[d as usize]
        } else {
            None
        }
    }

    /// Whether the device is up and a member of the staged plan.
    fn is_present(&self, d: u32) -> bool
        requires sound { IsSound (seen_by self.now) }
        requires range { d < length self.now.answers.now }
        ensures { result ≡ is_present (seen_by self.now) d }
    {
        // The window first: while none is open, which is nearly always, nothing else is looked at.
        self.world.window().is_open()
            && self.world.is_up(d)
            && is_member(self.plans, self.staged(), d)
    }

    /// Whether the device is up, follows the staged plan and is sealed.
    fn has_settled(&self, d: u32) -> bool
        requires sound { IsSound (seen_by self.now) }
        requires open { is_open self.now.world.now.window ≡ true }
        requires range { d < length self.now.answers.now }
        ensures { result ≡ has_settled_at (seen_by self.now) d }
    {
        match self.answered(d) {
            Some(answered) => answered.epoch == self.staged() && answered.sealed,
            None => false,
        }
    }

    /// The device by itself.
    fn count(&self, d: u32) -> SettledCount
        requires sound { IsSound (seen_by self.now) }
        requires range { d < length self.now.answers.now }
        ensures { result ≡ count_at (seen_by self.now) d }
    {
        let present = self.is_present(d);
        let settled = present && self.has_settled(d);
        SettledCount {
            present: present as u32,
            settled: settled as u32,
        }
    }

    /// The named device by itself, none where no device is named.
    pub fn count_named(&self, device: Option<u32>) -> SettledCount
        requires sound { IsSound (seen_by self.now) }
        requires range { IfSome device (λ d. d < length self.now.answers.now) }
        ensures { result ≡ count_named (seen_by self.now) device }
    {
        match device {
            Some(d) => self.count(d),
            None => SettledCount::none(),
        }
    }

    /// All devices.
    fn count_all(&self) -> SettledCount
        requires sound { IsSound (seen_by self.now) }
        ensures { result ≡ settled_count_of (seen_by self.now) }
    {
        let mut settled_count = SettledCount::none();
        for d in 0..self.answers.len() {
            settled_count = settled_count.plus(self.count(d as u32));
        }
        settled_count
    }

    /// The settled count without that of the named device.
    pub fn others(&self, settled_count: SettledCount, device: Option<u32>) -> SettledCount
        requires sound { IsSound (seen_by self.now) }
        requires settled_count { settled_count ≡ settled_count_of (seen_by self.now) }
        requires range { IfSome device (λ d. d < length self.now.answers.now) }
        ensures { add_counts result (count_named (seen_by self.now) device)
            ≡ settled_count_of (seen_by self.now) }
    {
        settled_count.minus(self.count_named(device))
    }

    /// The settled count after the event, where that of all devices but the named one was this before. A
    /// stage counts the members of another plan.
    pub fn after(&self, event: &Event, others: SettledCount) -> SettledCount
        requires sound { IsSound (seen_by self.now) }
        requires range { IfSome (device_of event.now) (λ d. d < length self.now.answers.now) }
        requires present { others.present ≤ length self.now.answers.now }
        requires settled { others.settled ≤ length self.now.answers.now }
        ensures { result ≡ (if is_stage event.now then settled_count_of (seen_by self.now)
            else add_counts others (count_named (seen_by self.now) (device_of event.now))) }
    {
        match event {
            Event::Stage { .. } => self.count_all(),
            _ => others.plus(self.count_named(event.device())),
        }
    }
}
