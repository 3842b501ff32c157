//! The calls of a device for a life of years: every counter of 64 bits, clocks of 128 bits, rounds
//! below 2^62.
ghost use Rattle.std.specs.Prelude.{◌≡◌, ◌≤◌, ◌<◌, ◌+◌, ◌^◌, ℕ, Some, List, option_map};
ghost use Rattle.sd_plan.specs.topo.Limits.{IsRates};
ghost use Rattle.sd_plan.specs.declared.Role.TheVariants as role;

use crate::msg::Message;
use crate::registers::{Registers, set_to};
use crate::{Device, Effect};
use sd_num::Rates;
use sd_num::clock::Report;
use sd_plan::Duty;

impl Device {
    ghost use Rattle.sd_device.specs.Calls.{Started, Joined, Call, Tick, Receive, Fix, Commit};
    ghost use Rattle.sd_device.specs.Living.{Life};
    ghost use Rattle.sd_device.specs.Words.{effect_of, report_at};
    ghost use Rattle.sd_device.specs.Lives.{past_of, longer};
    ghost use Rattle.sd_device.specs.Limits.{IsDuty};
    ghost use Rattle.sd_device.specs.Rules.{made, called, report_in, floor_in, ceiling_in};
    ghost use Rattle.sd_device.specs.Standing.{StandsFor, alone};
    ghost use Rattle.sd_device.specs.Rebases.{rebased, lowering, AnswersAlike, StandsLowered};

    /// A start whose clock and uncertainty are of 128 bits.
    pub fn started(duty: Duty, counter: u64, clock: u128, eps: u128) -> Device
        requires duty { IsDuty duty }
        requires clock { clock < 2 ^ 100 }
        requires eps { eps < 2 ^ 100 }
        ensures registers { result ≡ made (Started duty counter clock eps) }
        ensures told { StandsFor result (alone (Started duty counter clock eps)) }
    {
        Device {
            registers: Registers::started(duty, counter, clock, eps),
        }
    }

    /// A join whose clock and uncertainty are of 128 bits.
    pub fn joined(rates: Rates, counter: u64, clock: u128, eps: u128) -> Device
        requires rates { IsRates rates }
        requires clock { clock < 2 ^ 100 }
        requires eps { eps < 2 ^ 100 }
        ensures registers { result ≡ made (Joined rates counter clock eps) }
        ensures told { StandsFor result (alone (Joined rates counter clock eps)) }
    {
        Device {
            registers: Registers::joined(rates, counter, clock, eps),
        }
    }

    /// Its own timer, at this counter.
    pub fn tick(&mut self, counter: u64) -> Effect
        requires floor { floor_in self.old ≤ counter }
        requires ceiling { ceiling_in self.old < 2 ^ 100 }
        requires round { self.old.stamp.round < 2 ^ 62 }
        requires term { self.old.stamp.term < 2 ^ 31 }
        ensures registers { self.new ≡ (called self.old (Tick counter)).0 }
        ensures effect { result ≡ (called self.old (Tick counter)).1 }
        ensures sent { (life : Life) → StandsFor self.old life
            → result ≡ effect_of (past_of life) (Tick counter) }
        ensures told { (life : Life) → StandsFor self.old life
            → StandsFor self.new (longer life (Tick counter)) }
    {
        self.registers.tick(counter)
    }

    /// A message that came over this link while the counter showed this.
    pub fn receive(&mut self, link: u32, message: &Message, counter: u64) -> Effect
        requires floor { floor_in self.old ≤ counter }
        requires clock { message.now.clock < 2 ^ 100 }
        requires eps { message.now.eps < 2 ^ 100 }
        ensures registers { self.new ≡ (called self.old (Receive link message.now counter)).0 }
        ensures effect { result ≡ (called self.old (Receive link message.now counter)).1 }
        ensures sent { (life : Life) → StandsFor self.old life
            → result ≡ effect_of (past_of life) (Receive link message.now counter) }
        ensures told { (life : Life) → StandsFor self.old life
            → StandsFor self.new (longer life (Receive link message.now counter)) }
    {
        self.registers.receive(link, message, counter)
    }

    /// The clock is set from outside, with this uncertainty.
    pub fn fix(&mut self, counter: u64, clock: u128, eps: u128)
        requires floor { floor_in self.old ≤ counter }
        requires clock { clock < 2 ^ 100 }
        requires eps { eps < 2 ^ 100 }
        ensures registers { self.new ≡ (called self.old (Fix counter clock eps)).0 }
        ensures told { (life : Life) → StandsFor self.old life
            → StandsFor self.new (longer life (Fix counter clock eps)) }
    {
        self.registers.estimate = set_to(clock, eps, counter);
    }

    /// It takes up the duty that was given to it, as the root of the next plan.
    pub fn commit(&mut self, counter: u64)
        requires floor { floor_in self.old ≤ counter }
        requires term { self.old.stamp.term < 2 ^ 31 }
        requires root { option_map (λ duty. duty.role) self.old.given ≡ Some role.Root }
        ensures registers { self.new ≡ (called self.old (Commit counter)).0 }
        ensures told { (life : Life) → StandsFor self.old life
            → StandsFor self.new (longer life (Commit counter)) }
    {
        if let Some(duty) = self.registers.given {
            self.registers.commit(duty, counter);
        }
    }

    /// What it takes the reference time for at this counter.
    pub fn report_at(&self, counter: u64) -> Report
        requires floor { floor_in self.now ≤ counter }
        requires ceiling { ceiling_in self.now < 2 ^ 100 }
        ensures report { result ≡ report_in self.now counter }
        ensures told { (life : Life) → StandsFor self.now life
            → result ≡ report_at (past_of life) counter }
    {
        self.registers.report(counter)
    }

    /// It lowers the counters that it keeps by as much as it can while its counter shows this, and
    /// answers by how much. From now on its counter is to be read as that much less: then no later
    /// call answers anything else, as long as each commit keeps the rate of an estimate of before.
    pub fn rebase(&mut self, now: u64) -> u64
        requires floor { floor_in self.old ≤ now }
        requires ceiling { ceiling_in self.old < 2 ^ 100 }
        ensures registers { self.new ≡ rebased self.old now }
        ensures lowered { result ≡ lowering self.old now }
        ensures ceiling { ceiling_in self.new ≤ ceiling_in self.old + now }
        ensures later { (later : List Call) → AnswersAlike result now later self.old self.new }
        ensures told { (by at : ℕ) (life : Life) → StandsLowered by at self.old life
            → at ≤ now + by → StandsLowered (by + result) (now + by) self.new life }
    {
        self.registers.rebase(now)
    }
}
