//! Whether an event keeps the order of renewals.
ghost use Rattle.std.specs.Prelude.{◌≡◌, ◌<◌, ◌||◌, List, length, not, IsTrue, IfSome};
ghost use Rattle.std.specs.List.{list_all};
ghost use Rattle.sd_plan.specs.topo.Topologies.{network};
ghost use Rattle.sd_plan.specs.Plans.{members};
ghost use Rattle.sd_sched.specs.Events.{device_of};
ghost use Rattle.sd_history.specs.Premises.{is_prepared, commits_orderly, seals_orderly, fails_orderly, begins_orderly};
ghost use Rattle.sd_history.specs.Open.{may_be_seen};
ghost use Rattle.sd_history.specs.World.{Setting, Seen as Sight, is_up, has_entered, is_untouched, window_is_open};
ghost use Rattle.sd_monitors.specs.clocks.Sights.{sight_of};
ghost use Rattle.sd_monitors.specs.renewal.Moments.{staged_plan};
ghost use Rattle.sd_monitors.specs.renewal.Judging.{IsJudgeOf, lacks, lags, is_ready, is_met, is_orderly};

use crate::clocks::Seen;
use crate::renewal::judge::Judge;
use sd_sched::Event;
use sd_world::world::failure_of;

impl Judge<'_> {
    /// Whether a device is up and has its duty of the staged plan, and joined in the window where
    /// it is new.
    fn is_prepared(&self, d: u32) -> bool
        requires { d < length (network self.now.moment.topo.now).devices }
        ensures { (setting : Setting) (seen : List Sight) → IsJudgeOf self.now setting seen
            → result ≡ is_prepared setting seen d }
    {
        let world = self.moment.world;
        world.is_up(d)
            && self.progress.was_given(world, d)
            && (self.moment.is_in_force(d) || world.joined_in_window(d))
    }

    /// Whether each member of the staged plan is prepared.
    fn are_prepared(&self) -> bool
        ensures { (setting : Setting) (seen : List Sight) → IsJudgeOf self.now setting seen
            → result ≡ list_all (is_prepared setting seen)
            (members setting.net (staged_plan setting seen)) }
    {
        for d in 0..self.moment.topo.devices() {
            if self.lacks(d) {
                return false;
            }
        }
        true
    }

    /// Whether a member of the staged plan is not prepared.
    fn lacks(&self, d: u32) -> bool
        requires { d < length (network self.now.moment.topo.now).devices }
        ensures { (setting : Setting) (seen : List Sight) → IsJudgeOf self.now setting seen
            → result ≡ lacks setting seen d }
    {
        self.moment.is_staged(d) && !self.is_prepared(d)
    }

    /// Whether the event is no commit, or comes of a device that acts as root, to a staged plan
    /// whose members are prepared and that leaves out what it must.
    fn commits_orderly(&self, seen: &Seen<'_>) -> bool
        ensures { (setting : Setting) (earlier : List Sight) → IsJudgeOf self.now setting earlier
            → IsTrue (may_be_seen setting earlier seen.now.event)
            → result ≡ commits_orderly setting (sight_of seen.now) earlier }
    {
        match seen.event {
            Event::Commit { .. } => seen.acted && self.is_met(),
            _ => true,
        }
    }

    /// Whether the staged plan has all that a commit asks of it: its members are prepared, and it
    /// leaves out what it must.
    fn is_met(&self) -> bool
        ensures { (setting : Setting) (seen : List Sight) → IsJudgeOf self.now setting seen
            → IsTrue (window_is_open seen)
            → result ≡ is_met setting seen }
    {
        self.is_ready() && self.moment.leaves_out_cleanly()
    }

    /// Whether the members of the staged plan are prepared, and it leaves out each failed link.
    fn is_ready(&self) -> bool
        ensures { (setting : Setting) (seen : List Sight) → IsJudgeOf self.now setting seen
            → result ≡ is_ready setting seen }
    {
        self.are_prepared() && self.moment.leaves_out_failed()
    }

    /// Whether each member of the staged plan that is up has entered it.
    fn have_entered(&self) -> bool
        ensures { (setting : Setting) (seen : List Sight) → IsJudgeOf self.now setting seen
            → result ≡ list_all (λ d. not (is_up seen d) || has_entered seen d)
            (members setting.net (staged_plan setting seen)) }
    {
        for d in 0..self.moment.topo.devices() {
            if self.lags(d) {
                return false;
            }
        }
        true
    }

    /// Whether a member of the staged plan is up and has not entered it.
    fn lags(&self, d: u32) -> bool
        requires { d < length (network self.now.moment.topo.now).devices }
        ensures { (setting : Setting) (seen : List Sight) → IsJudgeOf self.now setting seen
            → result ≡ lags setting seen d }
    {
        let world = self.moment.world;
        self.moment.is_staged(d) && world.is_up(d) && !self.progress.has_entered(world, d)
    }

    /// Whether the event is no seal, or not the first of its window, or each member of the staged
    /// plan that is up has entered it.
    fn seals_orderly(&self, seen: &Seen<'_>) -> bool
        ensures { (setting : Setting) (earlier : List Sight) → IsJudgeOf self.now setting earlier
            → IsTrue (may_be_seen setting earlier seen.now.event)
            → result ≡ seals_orderly setting (sight_of seen.now) earlier }
    {
        match seen.event {
            Event::Seal { .. } => self.progress.has_seal(self.moment.world) || self.have_entered(),
            _ => true,
        }
    }

    /// Whether nothing fails with the event, or its window has neither a mend nor a commit.
    fn fails_orderly(&self, seen: &Seen<'_>) -> bool
        ensures { (setting : Setting) (earlier : List Sight) → IsJudgeOf self.now setting earlier
            → result ≡ fails_orderly (sight_of seen.now) earlier }
    {
        let world = self.moment.world;
        failure_of(&seen.event).is_none()
            || !(self.progress.has_mend(world) || world.window().is_committed())
    }

    /// Whether a device was neither started, joined nor failed.
    fn is_untouched(&self, d: u32) -> bool
        requires { d < length (network self.now.moment.topo.now).devices }
        ensures { (setting : Setting) (seen : List Sight) → IsJudgeOf self.now setting seen
            → result ≡ is_untouched seen d }
    {
        !self.moment.world.was_made(d) && !self.moment.world.has_ever_failed(d)
    }

    /// Whether the event starts no device after a stage, and lets no member of the plan in force
    /// join that was neither started, joined nor failed.
    fn begins_orderly(&self, seen: &Seen<'_>) -> bool
        requires { IfSome (device_of seen.now.event)
            (λ d. d < length (network self.now.moment.topo.now).devices) }
        ensures { (setting : Setting) (earlier : List Sight) → IsJudgeOf self.now setting earlier
            → result ≡ begins_orderly setting (sight_of seen.now) earlier }
    {
        match seen.event {
            Event::Start { .. } => !self.progress.has_begun(),
            Event::Join { device, .. } => {
                !(self.moment.is_in_force(device) && self.is_untouched(device))
            }
            _ => true,
        }
    }

    /// Whether the event keeps the order of renewals.
    pub(crate) fn is_orderly(&self, seen: &Seen<'_>) -> bool
        requires { IfSome (device_of seen.now.event)
            (λ d. d < length (network self.now.moment.topo.now).devices) }
        ensures { (setting : Setting) (earlier : List Sight) → IsJudgeOf self.now setting earlier
            → IsTrue (may_be_seen setting earlier seen.now.event)
            → result ≡ is_orderly setting (sight_of seen.now) earlier }
    {
        self.commits_orderly(seen)
            && self.seals_orderly(seen)
            && self.fails_orderly(seen)
            && self.begins_orderly(seen)
    }
}
