//! A tick while no window is open, after which its device answers as before, and the taking of a
//! flight, after which a receipt is one. Nearly all events are such.
ghost use Rattle.std.specs.Prelude.{◌≡◌, ◌≤◌, ◌<◌, ◌^◌, false, length, None, Some, Ok, IsTrue};
ghost use Rattle.sd_num.specs.Lists.{at_place, map_or};
ghost use Rattle.sd_sched.specs.declared.Event.TheVariants as events_of;
ghost use Rattle.sd_world.specs.declared.membership.AnswerSummary.{AnswerSummary};
ghost use Rattle.sd_world.specs.world.Registers.{is_open};
ghost use Rattle.sd_world.specs.membership.Memberships.{live_at};
ghost use Rattle.sd_fleet.specs.Causes.{refusal_in, flight_at};
ghost use Rattle.sd_fleet.specs.Calm.{is_on_time};
ghost use Rattle.sd_fleet.specs.Doing.{replied};
ghost use Rattle.sd_fleet.specs.Room.{ends_in};
ghost use Rattle.sd_fleet.specs.Sound.{IsSound};
ghost use Rattle.sd_fleet.specs.Keeping.{SendsTo};
ghost use Rattle.sd_fleet.specs.Staying.{StaysAt};
ghost use Rattle.sd_fleet.specs.Stepping.{IsWithout};

use crate::Fabric;
use crate::messages::{Sent, send_by};
use sd_device::Effect;
use sd_device::msg::Flight;
use sd_world::membership::Membership;

/// The number of the plan that a device follows, 0 where it is not up.
#[inline(always)]
fn epoch_at(membership: &Membership, d: u32) -> u32
    requires { d < length membership.now.answers }
    ensures { result ≡ map_or (live_at membership.now d) 0 (λ a. a.epoch) }
{
    match membership.answered(d) {
        Some(answered) => answered.epoch,
        None => 0,
    }
}

impl Fabric {
    /// Takes the flight with a number, which is on its way to the device at the reference.
    #[inline(always)]
    pub fn receive(&mut self, reference: u64, d: u32, number: u64) -> Flight
        requires { IsTrue (is_on_time reference d (flight_at self.old number)) }
        ensures found { flight_at self.old number ≡ Ok result }
        ensures left { IsWithout number self.old self.new }
        ensures sound { IsSound self.new }
    {
        self.book.take_found(number)
    }

    /// A tick while no window is open, at which its device did this and answers as before. It tells
    /// which messages were sent.
    #[inline(always)]
    pub fn tick(&mut self, reference: u64, d: u32, counter: u64, effect: &Effect) -> Sent
        requires accepted { refusal_in self.old (events_of.Tick reference d counter) ≡ None }
        requires reference { reference ≤ 2 ^ 60 }
        requires shut { is_open self.old.membership.world.window ≡ false }
        requires room { ends_in self.old d ≤ self.old.book.room }
        ensures sends { (answers : AnswerSummary)
            → at_place self.old.membership.answers d None (λ a. a) ≡ Some answers
            → SendsTo self.old (events_of.Tick reference d counter)
            (replied effect.now answers) result self.new }
        ensures few { result.count ≤ ends_in self.old d }
        ensures stays { StaysAt self.old.membership self.new.membership d }
        ensures sound { IsSound self.new }
    {
        let epoch = epoch_at(&self.membership, d);
        self.book.purge(reference);
        let sent = send_by(
            &self.topology,
            &self.membership,
            &mut self.book,
            reference,
            d,
            epoch,
            effect,
        );
        self.membership.note_rest(reference, d, counter);
        sent
    }
}
