//! What a device keeps, and how the calls that bring no message and no tick change it.
ghost use Rattle.std.specs.Prelude.{◌≡◌, ◌≤◌, ◌<◌, ◌^◌, Some};
ghost use Rattle.sd_plan.specs.topo.Limits.{IsRates};
ghost use Rattle.sd_num.specs.clock.Estimates.{estimate_at};

use crate::msg::Stamp;
use sd_num::Rates;
use sd_num::clock::{Estimate, Report};
use sd_plan::{Duty, Edge, Role};

/// Whom a device follows.
#[derive(Clone, Copy, Debug, PartialEq, Eq)]
pub enum Mode {
    /// Its primary parent.
    Primary,
    /// Its backup parent.
    Backup,
    /// Nobody: it acts as root.
    Acting,
    /// Nobody: it joined, and has no duty yet.
    Idle,
}

/// What a device keeps, as plain numbers. Counters are in ps.
// Fields lie in this order: first what each tick and each message reads.
#[derive(Clone, Copy, Debug, PartialEq, Eq)]
pub struct Registers {
    /// Whom it follows.
    pub mode: Mode,
    /// Whether it may move to its backup parent, and take over as root after that.
    pub sealed: bool,
    /// The stamp of the message that it accepted last, or its own while it acts as root: two
    /// counts, without a unit.
    pub stamp: Stamp,
    /// The counter when it was made, accepted a message or moved, whichever came last, in
    /// picoseconds.
    pub last: u64,
    /// The counter when it was made, sent as root or began to act as root, whichever came last, in
    /// picoseconds.
    pub sent: u64,
    /// What it knew of the reference time when that was set last: the clock, its uncertainty and
    /// the counter then, all in picoseconds.
    pub estimate: Estimate,
    /// How far its oscillator may drift: parts per million of the time that passes, and a constant
    /// in picoseconds.
    pub rates: Rates,
    /// The duty of the plan that it follows, or none before it follows one. The period and the
    /// waits of a duty are in picoseconds.
    pub duty: Option<Duty>,
    /// The duty of the next plan, where one was given to it that it has not taken up yet.
    pub given: Option<Duty>,
}

/// The stamp before anything was heard.
const FIRST: Stamp = Stamp { term: 0, round: 0 };

impl Registers {
    ghost use Rattle.sd_device.specs.Calls.{Started, Joined};
    ghost use Rattle.sd_device.specs.Rules.{made, epoch_in, edge_in, report_in, floor_in, ceiling_in, with_duty, committed};

    /// Those of a device that starts with its duty.
    pub(crate) fn started(duty: Duty, counter: u64, clock: u128, eps: u128) -> Registers
        ensures { result ≡ made (Started duty counter clock eps) }
    {
        Registers {
            duty: Some(duty),
            given: None,
            mode: match duty.role {
                Role::Root => Mode::Acting,
                Role::BackupRoot | Role::Ordinary => Mode::Primary,
            },
            sealed: true,
            stamp: FIRST,
            last: counter,
            sent: counter,
            estimate: set_to(clock, eps, counter),
            rates: duty.rates,
        }
    }

    /// Those of a device that joins without a duty.
    pub(crate) fn joined(rates: Rates, counter: u64, clock: u128, eps: u128) -> Registers
        ensures { result ≡ made (Joined rates counter clock eps) }
    {
        Registers {
            duty: None,
            given: None,
            mode: Mode::Idle,
            sealed: true,
            stamp: FIRST,
            last: counter,
            sent: counter,
            estimate: set_to(clock, eps, counter),
            rates,
        }
    }

    /// The number of the plan that the duty is of, and 0 without a duty.
    pub(crate) fn epoch(&self) -> u32
        ensures { result ≡ epoch_in self.now }
    {
        match &self.duty {
            Some(duty) => duty.epoch,
            None => 0,
        }
    }

    /// The edge to the present parent.
    pub(crate) fn edge(&self) -> Option<Edge>
        ensures { result ≡ edge_in self.now }
    {
        let Some(duty) = self.duty else {
            return None;
        };
        match self.mode {
            Mode::Primary => duty.primary,
            Mode::Backup => duty.backup,
            Mode::Acting | Mode::Idle => None,
        }
    }

    /// The report at a counter.
    pub(crate) fn report(&self, counter: u64) -> Report
        requires floor { floor_in self.now ≤ counter }
        requires ceiling { ceiling_in self.now < 2 ^ 100 }
        requires rates { IsRates self.now.rates }
        ensures { result ≡ report_in self.now counter }
    {
        self.estimate.report(self.rates, counter)
    }

    /// The given duty becomes the duty; where the device does not act already, it begins to, with
    /// a new term.
    pub(crate) fn commit(&mut self, duty: Duty, counter: u64)
        requires { self.old.stamp.term < 2 ^ 31 }
        ensures { self.new ≡ committed self.old counter duty }
    {
        self.take_up(duty);
        if self.mode != Mode::Acting {
            self.mode = Mode::Acting;
            self.stamp = Stamp {
                term: self.stamp.term + 1,
                round: 0,
            };
            self.sent = counter;
        }
    }

    /// This duty becomes the duty, nothing is given any more, and the device may not move until it
    /// is sealed again.
    pub(crate) fn take_up(&mut self, duty: Duty)
        ensures { self.new ≡ with_duty self.old duty }
    {
        self.duty = Some(duty);
        self.given = None;
        self.sealed = false;
        self.rates = duty.rates;
    }
}

/// The estimate that a start, a join or a fix sets.
pub(crate) fn set_to(clock: u128, eps: u128, counter: u64) -> Estimate
    ensures { result ≡ estimate_at clock eps counter }
{
    Estimate {
        clock,
        base: eps,
        at: counter,
    }
}
