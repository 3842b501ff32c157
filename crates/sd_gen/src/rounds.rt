//! What happens in a round. Its reference is 50 microseconds after that of the round before.
ghost use Rattle.std.specs.Prelude.{◌≡◌, ◌≤◌, ◌^◌, OnOk};
ghost use Rattle.sd_gen.specs.Drafts.{round as round_in, with_failure, with_renewal, with_seals, with_end};
ghost use Rattle.sd_gen.specs.Turns.{renewed, failed, ended};

use crate::ROUNDS;
use crate::driven::Driven;
use crate::driver::Driver;
use crate::turns::Turn;
use sd_num::NoMemory;
use sd_sched::Event;
use std::alloc::Global;

/// The time from one round to the next, in ps.
const PERIOD: u64 = 50_000_000;

/// When the first device fails, in ps.
const FAILURE: u64 = 1_025_000_000;

impl<D: Driven> Driver<D> {
    ghost use Rattle.sd_gen.specs.Standing.{Becomes};

    /// Round after round, from 1: the messages up to the round's reference are received, each
    /// device that is up ticks, and then comes what this round has besides.
    pub fn round(&mut self, alloc: Global, round: u64) -> Result<(), NoMemory>
        requires { round ≤ 200 }
        ensures { OnOk result
            (Becomes D.Driven self.old self.new (λ setting. round_in setting round)) }
    {
        let reference = PERIOD * round;
        self.failure(alloc, round)?;
        self.receive_until(alloc, reference)?;
        self.each_up(alloc, Turn::Tick, reference)?;
        self.renewal(alloc, round, reference)?;
        self.seals(alloc, round, reference)?;
        self.ask(alloc, round, reference)?;
        self.end(alloc, round, reference)
    }

    /// In round 21 the first device fails, amid the receipts.
    fn failure(&mut self, alloc: Global, round: u64) -> Result<(), NoMemory>
        ensures { OnOk result
            (Becomes D.Driven self.old self.new (λ setting. with_failure setting round)) }
    {
        if round != 21 {
            return Ok(());
        }
        self.fail(alloc)
    }

    fn fail(&mut self, alloc: Global) -> Result<(), NoMemory>
        ensures { OnOk result (Becomes D.Driven self.old self.new failed) }
    {
        self.receive_until(alloc, FAILURE)?;
        let failure = Event::FailDevice {
            reference: FAILURE,
            device: 0,
        };
        self.try_event(alloc, &failure)
    }

    /// In round 150 the second plan is brought in.
    fn renewal(&mut self, alloc: Global, round: u64, reference: u64) -> Result<(), NoMemory>
        requires { reference ≤ 2 ^ 40 }
        ensures { OnOk result
            (Becomes D.Driven self.old self.new (λ setting. with_renewal setting round reference)) }
    {
        if round != 150 {
            return Ok(());
        }
        self.renew(alloc, reference)
    }

    /// The stage, a give to each device that is up, and the commit of the second device.
    fn renew(&mut self, alloc: Global, reference: u64) -> Result<(), NoMemory>
        requires { reference ≤ 2 ^ 40 }
        ensures { OnOk result
            (Becomes D.Driven self.old self.new (λ setting. renewed setting reference)) }
    {
        self.try_event(alloc, &Event::Stage { reference })?;
        self.each_up(alloc, Turn::Give, reference)?;
        let commit = Event::Commit {
            reference,
            device: 1,
            counter: self.counter(1, reference),
        };
        self.try_event(alloc, &commit)
    }

    /// In round 160 each device that is up is sealed.
    fn seals(&mut self, alloc: Global, round: u64, reference: u64) -> Result<(), NoMemory>
        requires { reference ≤ 2 ^ 40 }
        ensures { OnOk result
            (Becomes D.Driven self.old self.new (λ setting. with_seals setting round reference)) }
    {
        if round != 160 {
            return Ok(());
        }
        self.each_up(alloc, Turn::Seal, reference)
    }

    /// In the last round each device that is up is asked, and the schedule ends.
    fn end(&mut self, alloc: Global, round: u64, reference: u64) -> Result<(), NoMemory>
        requires { reference ≤ 2 ^ 40 }
        ensures { OnOk result
            (Becomes D.Driven self.old self.new (λ setting. with_end setting round reference)) }
    {
        if round != ROUNDS {
            return Ok(());
        }
        self.finish(alloc, reference)
    }

    fn finish(&mut self, alloc: Global, reference: u64) -> Result<(), NoMemory>
        requires { reference ≤ 2 ^ 40 }
        ensures { OnOk result
            (Becomes D.Driven self.old self.new (λ setting. ended setting reference)) }
    {
        self.each_up(alloc, Turn::Ask, reference)?;
        self.try_event(alloc, &Event::End { reference })
    }
}
