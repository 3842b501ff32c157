//! What a tick makes of a device: it moves to its backup, takes over, emits as the acting root, or stays as it is.
ghost use Rattle.std.specs.Prelude.{◌≡◌, ◌≢◌, ◌≤◌, ◌<◌, ◌^◌, ◌&&◌, nat_le, false, IsTrue};
ghost use Rattle.sd_num.specs.Lists.{map_or};
ghost use Rattle.sd_plan.specs.topo.Limits.{IsRates};
ghost use Rattle.sd_device.specs.Words.{wait_to_move as silence_of};
ghost use Rattle.sd_device.specs.Rules.{is_backup_root};
ghost use Rattle.sd_device.specs.declared.turns.Turn.TheVariants.{Stay};

use crate::Effect;
use crate::msg::{Message, Stamp};
use crate::registers::{Mode, Registers};
use sd_plan::{Duty, Role};

/// What a tick makes a device do.
#[derive(Clone, Copy, Debug, PartialEq, Eq)]
pub enum Turn {
    /// It sends its report, as the acting root.
    Emit,
    /// It begins to act as root, and sends its report.
    TakeOver,
    /// It moves to its backup parent.
    Move,
    Stay,
}

impl Registers {
    ghost use Rattle.sd_device.specs.Calls.{Tick};
    ghost use Rattle.sd_device.specs.Rules.{floor_in, ceiling_in, turn_of, turn_with, called, reporting};

    /// What a tick at this counter does.
    fn turn(&self, counter: u64) -> Turn
        requires { floor_in self.now ≤ counter }
        ensures { result ≡ turn_of self.now counter }
    {
        match &self.duty {
            Some(duty) => self.turn_by(duty, counter),
            None => Turn::Stay,
        }
    }

    /// What it does for a device of this duty.
    fn turn_by(&self, duty: &Duty, counter: u64) -> Turn
        requires { floor_in self.now ≤ counter }
        ensures { result ≡ turn_with self.now counter duty.now }
    {
        let silence = counter - self.last;
        match self.mode {
            Mode::Acting if counter - self.sent >= duty.period => Turn::Emit,
            Mode::Primary if self.sealed && is_long(wait_to_move(duty), silence) => Turn::Move,
            Mode::Backup if self.sealed && takes_over(duty, silence) => Turn::TakeOver,
            _ => Turn::Stay,
        }
    }

    /// Whether a tick at this counter leaves it as it is.
    #[inline(always)]
    pub(crate) fn rests(&self, counter: u64) -> bool
        requires { floor_in self.now ≤ counter }
        ensures stays { IsTrue result → turn_of self.now counter ≡ Stay }
        ensures turns { result ≡ false → turn_of self.now counter ≢ Stay }
    {
        matches!(self.turn(counter), Turn::Stay)
    }

    /// A tick at this counter.
    pub(crate) fn tick(&mut self, counter: u64) -> Effect
        requires floor { floor_in self.old ≤ counter }
        requires ceiling { ceiling_in self.old < 2 ^ 100 }
        requires round { self.old.stamp.round < 2 ^ 62 }
        requires term { self.old.stamp.term < 2 ^ 31 }
        requires rates { IsRates self.old.rates }
        ensures registers { self.new ≡ (called self.old (Tick counter)).0 }
        ensures effect { result ≡ (called self.old (Tick counter)).1 }
    {
        match self.turn(counter) {
            Turn::Emit => {
                self.stamp.round += 1;
                self.sent = counter;
                self.send_report(counter)
            }
            Turn::TakeOver => {
                self.mode = Mode::Acting;
                self.stamp = Stamp {
                    term: self.stamp.term + 1,
                    round: 1,
                };
                self.sent = counter;
                self.send_report(counter)
            }
            Turn::Move => {
                self.mode = Mode::Backup;
                self.last = counter;
                Effect::Quiet
            }
            Turn::Stay => Effect::Quiet,
        }
    }

    /// A message of its own epoch and stamp, with its report at this counter.
    fn send_report(&self, counter: u64) -> Effect
        requires floor { floor_in self.now ≤ counter }
        requires ceiling { ceiling_in self.now < 2 ^ 100 }
        requires rates { IsRates self.now.rates }
        ensures { result ≡ (reporting self.now counter).1 }
    {
        let report = self.report(counter);
        Effect::Send(Message {
            epoch: self.epoch(),
            stamp: self.stamp,
            clock: report.clock,
            eps: report.eps,
        })
    }
}

/// How long a device hears nothing before it moves to its backup parent, if it ever does.
pub(crate) fn wait_to_move(duty: &Duty) -> Option<u64>
    ensures { result ≡ silence_of duty.now }
{
    match duty.role {
        Role::Root => None,
        Role::BackupRoot => Some(duty.wait_first),
        Role::Ordinary if duty.backup.is_some() => Some(duty.wait),
        Role::Ordinary => None,
    }
}

/// Whether the silence is as long as the wait.
fn is_long(wait: Option<u64>, silence: u64) -> bool
    ensures { result ≡ map_or wait false (λ w. nat_le w silence) }
{
    matches!(wait, Some(wait) if silence >= wait)
}

/// Whether a backup root that moved takes over after this silence.
fn takes_over(duty: &Duty, silence: u64) -> bool
    ensures { result ≡ (is_backup_root duty.now && nat_le duty.now.wait_second silence) }
{
    duty.role == Role::BackupRoot && silence >= duty.wait_second
}
