//! A tick at which its device rests: only the time goes on. Most events are such.
ghost use Rattle.std.specs.Prelude.{◌≡◌, false, None, Some, IsTrue};
ghost use Rattle.sd_num.specs.Lists.{at_place};
ghost use Rattle.sd_device.specs.declared.Effect.TheVariants.{Quiet};
ghost use Rattle.sd_sched.specs.declared.Event.TheVariants as events_of;
ghost use Rattle.sd_world.specs.declared.membership.AnswerSummary.{AnswerSummary};
ghost use Rattle.sd_world.specs.world.Registers.{is_open};
ghost use Rattle.sd_fleet.specs.Causes.{refusal_in};
ghost use Rattle.sd_fleet.specs.Doing.{replied};
ghost use Rattle.sd_fleet.specs.Sound.{IsSound};
ghost use Rattle.sd_fleet.specs.Stepping.{IsAfter};
ghost use Rattle.sd_fleet.specs.Staying.{StaysAt};

use crate::Fabric;

impl Fabric {
    /// Whether nothing stands against a tick, and no window is open.
    #[tactic(auto, using(crate::proofs::Calm::calm_tick))]
    #[inline(always)]
    pub fn admits_tick(&self, reference: u64, d: u32, counter: u64) -> bool
        ensures accepted { IsTrue result
            → refusal_in self.now (events_of.Tick reference d counter) ≡ None }
        ensures shut { IsTrue result → is_open self.now.membership.world.window ≡ false }
        ensures sound { IsSound self.now }
    {
        self.membership.world().admits_call(reference, d, counter) && !self.has_window()
    }

    /// A tick while no window is open, at which its device sends nothing and answers as before.
    // Nothing is written but the time.
    #[inline(always)]
    pub fn rest(&mut self, reference: u64, d: u32, counter: u64)
        requires accepted { refusal_in self.old (events_of.Tick reference d counter) ≡ None }
        requires shut { is_open self.old.membership.world.window ≡ false }
        ensures after { (answers : AnswerSummary)
            → at_place self.old.membership.answers d None (λ a. a) ≡ Some answers
            → IsAfter self.old (events_of.Tick reference d counter) (replied Quiet answers)
            self.new }
        ensures stays { StaysAt self.old.membership self.new.membership d }
        ensures sound { IsSound self.new }
    {
        self.book.purge(reference);
        self.membership.note_rest(reference, d, counter);
    }
}
