//! Devices and plans as a fabric keeps them: who is up and a member, what each device answered
//! last, and how many members of the staged plan have settled.
//!
//! `Registers` of the specs is what is kept. `Stands` says for which steps of a history it is kept,
//! and the proofs (`Laws`) that its words are those of histories then.
ghost use Rattle.std.specs.Prelude.{◌≡◌, ◌≤◌, ◌<◌, ◌^◌, ℕ, [], Some, None, IsTrue, IfSome, IfOk, length, replicate, true, false, option_map};
ghost use Rattle.sd_plan.specs.topo.Topologies.{network};
ghost use Rattle.sd_sched.specs.Events.{device_of, is_stage};
ghost use Rattle.sd_sched.specs.declared.Event.TheVariants as events_of;
ghost use Rattle.sd_history.specs.World.{Setting};
ghost use Rattle.sd_world.specs.world.Registers.{is_open, HasNamed};
ghost use Rattle.sd_world.specs.membership.Plans.{AreSound, AreTables, IsNumber, root_numbered, row_numbered, is_member_numbered};
ghost use Rattle.sd_world.specs.membership.Memberships.{IsSound, live_at, is_of, is_in_force, is_in_staged, is_counted_at, ends_below, is_current_number, can_close_in, answers_after, registers_after, registers_resting, registers_closed};
ghost use Rattle.sd_world.specs.membership.Counts.{seen_by};
ghost use Rattle.sd_world.specs.membership.Standing.{Stands};

mod plans;
mod settled_count;

use crate::membership::plans::{NumberedPlan, is_member, number_all};
use crate::membership::settled_count::{MemberStates, SettledCount};
use crate::world::World;
use sd_num::NoMemory;
use sd_plan::topo::Topology;
use sd_plan::{Duty, End, Plan};
use sd_sched::Event;
use std::alloc::Global;
use std::marker::Model;

/// What a device answers when it is asked of itself, once it was made or called.
// In this order its fields have no gaps between them: it is copied at nearly every event.
#[derive(Clone, Copy, Debug, PartialEq, Eq)]
pub struct AnswerSummary {
    pub parent: Option<u32>,
    pub acts: bool,
    pub sealed: bool,
    /// The number of the plan that it follows, 0 where it follows none.
    pub epoch: u32,
    /// The number of the plan whose duty was given to it and is not taken up yet.
    pub given: Option<u32>,
}

/// What is kept of devices and plans. An event changes it in constant time, but that a stage
/// counts all members of its plan. Only `new` takes memory.
#[derive(Drop)]
pub struct Membership {
    /// By number, from 1.
    plans: Vec<NumberedPlan>,
    world: World,
    /// By device, since it was last made or called.
    answers: Vec<Option<AnswerSummary>>,
    /// Of the staged plan.
    settled_count: SettledCount,
}

impl Model for Membership {
    ghost use Rattle.sd_world.specs.membership.Memberships.{Registers};

    ghost Value = { Registers };

    ghost use Rattle.sd_world.specs.membership.MembershipView.{registers_seen, IsMembership};

    ghost view = { registers_seen };

    ghost invariant = { IsMembership };
}

/// No device answered.
fn no_answers(alloc: Global, count: u32) -> Result<Vec<Option<AnswerSummary>>, NoMemory>
    ensures { IfOk result (λ answers. answers.items ≡ replicate count None) }
{
    match vec![in alloc; None; count as usize] {
        Ok(answers) => Ok(answers),
        Err(_) => Err(NoMemory),
    }
}

/// What the named device answers from now on, where it is told.
fn note_answers(
    answers: &mut [Option<AnswerSummary>],
    device: Option<u32>,
    told: &Option<AnswerSummary>,
)
    requires { IfSome device (λ d. d < length answers.old) }
    ensures { answers.new ≡ answers_after device told.now answers.old }
{
    if let Some(d) = device {
        if let Some(answered) = told {
            answers[d as usize] = Some(*answered);
        }
    }
}

impl Membership {
    /// Devices and plans before any event. The first plan is in force.
    pub fn new(alloc: Global, topo: &Topology, plans: &[Plan]) -> Result<Membership, NoMemory>
        requires some { 1 ≤ length plans.now }
        requires count { length plans.now < 2 ^ 32 }
        requires sound { AreSound (network topo.now) plans.now }
        ensures sound { IfOk result IsSound }
        ensures tables { IfOk result (λ r. AreTables (network topo.now) r.plans) }
        ensures stands { IfOk result (λ r. (setting : Setting)
            → setting.net ≡ network topo.now → setting.plans ≡ plans.now → Stands r setting []) }
    {
        let numbered = number_all(alloc, topo, plans)?;
        let world = World::new(alloc, topo.devices(), topo.links())?;
        let answers = no_answers(alloc, topo.devices())?;
        Ok(Membership {
            plans: numbered,
            world,
            answers,
            settled_count: SettledCount::none(),
        })
    }

    /// The world of devices and links.
    pub fn world(&self) -> &World
        ensures world { result.now ≡ self.now.world }
        ensures sound { IsSound self.now }
    {
        &self.world
    }

    /// How many plans there are.
    pub fn plans(&self) -> u32
        ensures { result ≡ length self.now.plans }
    {
        self.plans.len() as u32
    }

    /// What the device answers, where it is up.
    pub fn answered(&self, d: u32) -> Option<AnswerSummary>
        requires { d < length self.now.answers }
        ensures { result ≡ live_at self.now d }
    {
        self.member_states().answered(d)
    }

    /// Whether the device is up and follows the plan with this number.
    pub fn follows(&self, epoch: u32, d: u32) -> bool
        requires { d < length self.now.answers }
        ensures { result ≡ is_of self.now epoch d }
    {
        match self.answered(d) {
            Some(answered) => answered.epoch == epoch,
            None => false,
        }
    }

    /// Whether the device is a member of the plan in force.
    pub fn is_in_force(&self, d: u32) -> bool
        requires { d < length self.now.answers }
        ensures { result ≡ is_in_force self.now d }
    {
        self.is_member(self.world.epoch(), d)
    }

    /// Whether a plan is staged and has the device as a member.
    pub fn is_in_staged(&self, d: u32) -> bool
        requires { d < length self.now.answers }
        ensures { result ≡ is_in_staged self.now d }
    {
        self.world.window().is_open() && self.is_member(self.world.epoch() + 1, d)
    }

    /// Whether the device counts as live: it is up, and a member of the plan in force or joined in
    /// the open window.
    pub fn is_counted(&self, d: u32) -> bool
        requires { d < length self.now.answers }
        ensures { result ≡ is_counted_at self.now d }
    {
        self.world.is_up(d) && (self.is_in_force(d) || self.world.joined_in_window(d))
    }

    /// The root of the plan with this number.
    pub fn root(&self, epoch: u32) -> u32
        requires { IsNumber self.now.plans epoch }
        ensures { result ≡ root_numbered self.now.plans epoch }
    {
        self.plans[epoch as usize - 1].root
    }

    /// What the plan with this number tells a member.
    pub fn duty(&self, epoch: u32, d: u32) -> &Duty
        requires number { IsNumber self.now.plans epoch }
        requires member { IsTrue (is_member_numbered self.now.plans epoch d) }
        ensures { option_map (λ row. row.duty) (row_numbered self.now.plans epoch d)
            ≡ Some result.now }
    {
        self.plans[epoch as usize - 1].table.row(d).duty
    }

    /// What lies below the device in the plan with this number, by ascending link; nothing where
    /// that plan is neither in force nor staged.
    pub fn ends_below(&self, epoch: u32, d: u32) -> &[End]
        requires { d < length self.now.answers }
        ensures { result.now ≡ ends_below self.now epoch d }
    {
        if self.is_current(epoch) && self.is_member(epoch, d) {
            self.plans[epoch as usize - 1].table.row(d).downstream
        } else {
            &[]
        }
    }

    /// The next event, with which the window does not close, and what its device answers from then
    /// on where it was made or called.
    pub fn observe(&mut self, event: &Event, answers: &Option<AnswerSummary>)
        requires room { self.old.world.events < 2 ^ 63 }
        requires named { HasNamed self.old.world event.now }
        requires stage { is_stage event.now ≡ true → self.old.world.epoch < length self.old.plans }
        ensures registers { self.new ≡ registers_after self.old event.now answers.now }
        ensures sound { IsSound self.new }
    {
        let device = event.device();
        let others = MemberStates {
            plans: &self.plans,
            world: &self.world,
            answers: &self.answers,
        }
        .others(self.settled_count, device);
        self.world.observe(event);
        note_answers(&mut self.answers, device, answers);
        self.settled_count = MemberStates {
            plans: &self.plans,
            world: &self.world,
            answers: &self.answers,
        }
        .after(event, others);
    }

    /// A tick or a receipt while no window is open, and what its device answers from then on.
    #[inline(always)]
    pub fn note_call(&mut self, reference: u64, d: u32, counter: u64, answers: &AnswerSummary)
        requires room { self.old.world.events < 2 ^ 63 }
        requires range { d < length self.old.answers }
        requires closed { is_open self.old.world.window ≡ false }
        ensures tick { self.new
            ≡ registers_after self.old (events_of.Tick reference d counter) (Some answers.now) }
        ensures receipt { (message : ℕ) → self.new
            ≡ registers_after self.old (events_of.Recv reference d counter message)
            (Some answers.now) }
        ensures sound { IsSound self.new }
    {
        self.world.note_call(reference, d, counter);
        self.answers[d as usize] = Some(*answers);
    }

    /// A tick or a receipt while no window is open, after which its device answers as before.
    #[inline(always)]
    pub fn note_rest(&mut self, reference: u64, d: u32, counter: u64)
        requires room { self.old.world.events < 2 ^ 63 }
        requires range { d < length self.old.answers }
        requires closed { is_open self.old.world.window ≡ false }
        ensures tick { self.new
            ≡ registers_resting self.old (events_of.Tick reference d counter) }
        ensures receipt { (message : ℕ) → self.new
            ≡ registers_resting self.old (events_of.Recv reference d counter message) }
        ensures sound { IsSound self.new }
    {
        self.world.note_call(reference, d, counter);
    }

    /// Whether the open window can close: it has its commit, some member of the staged plan is up,
    /// and each that is up follows it and is sealed.
    pub fn can_close(&self) -> bool
        ensures { result ≡ can_close_in self.now }
    {
        self.world.window().is_committed() && self.settled_count.all_settled()
    }

    /// The window closes with the latest event: the staged plan is in force.
    pub fn close(&mut self)
        requires { is_open self.old.world.window ≡ true }
        ensures registers { self.new ≡ registers_closed self.old }
        ensures sound { IsSound self.new }
    {
        self.world.close();
        self.settled_count = SettledCount::none();
    }

    /// What a count looks at.
    fn member_states(&self) -> MemberStates<'_>
        ensures member_states { seen_by result ≡ self.now }
        ensures sound { IsSound self.now }
    {
        MemberStates {
            plans: &self.plans,
            world: &self.world,
            answers: &self.answers,
        }
    }

    /// Whether the plan with this number is in force or staged.
    fn is_current(&self, epoch: u32) -> bool
        ensures current { result ≡ is_current_number self.now epoch }
        ensures number { IsTrue result → IsNumber self.now.plans epoch }
    {
        let in_force = self.world.epoch();
        epoch == in_force || (self.world.window().is_open() && epoch == in_force + 1)
    }

    /// Whether the device is a member of the plan with this number.
    fn is_member(&self, epoch: u32, d: u32) -> bool
        requires number { IsNumber self.now.plans epoch }
        requires range { d < length self.now.answers }
        ensures { result ≡ is_member_numbered self.now.plans epoch d }
    {
        is_member(&self.plans, epoch, d)
    }
}
