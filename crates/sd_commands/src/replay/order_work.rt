//! A replay with commit wait: the work of `order`.
ghost use Rattle.std.specs.Prelude.{◌≡◌, ◌++◌, ◌||◌, ℕ, List, length, nat_lt, OnOk};
ghost use Rattle.sd_io.specs.outside.Printed.{printed};
ghost use Rattle.sd_sched.specs.declared.Event.{Event as AnyEvent};
ghost use Rattle.sd_history.specs.World.{Setting};
ghost use Rattle.sd_history.specs.Chronicle.{chronicle};
ghost use Rattle.sd_history.specs.Lines.{reports};
ghost use Rattle.sd_replay.specs.Devices.{HasReplayed};
ghost use Rattle.sd_replay.specs.wait.Printed.{waits_line};
ghost use Rattle.sd_replay.specs.declared.wait.WaitTally.{WaitTally as AnyTally};
ghost use Rattle.sd_files.specs.work.Taking.{Takes};
ghost use Rattle.sd_files.specs.declared.work.Taken.TheVariants.{Accepted};
ghost use Rattle.sd_commands.specs.replay.Replays.{order_work, replay_work};
ghost use Rattle.sd_commands.specs.replay.Telling.{latest_name, latest_waits};
ghost use Rattle.sd_commands.specs.contracts.replay.observer.WaitObserverObserver.TheImpl.{ghosts};

use crate::replay::observer::WaitObserver;
use crate::replay::replay_work::{ReplayWork, status_if};
use sd_device::Device;
use sd_files::work::{LineWork, Taken};
use sd_files::{IoError, Status, send};
use sd_io::outside::{LineBuffer, Sink};
use sd_num::NoMemory;
use sd_replay::wait::WaitTally;
use sd_replay::{Event, Replay};
use std::alloc::Global;

/// A replay that tells commit wait of its reports.
#[derive(Drop)]
pub struct OrderWork {
    pub replayed: ReplayWork<WaitObserver>,
}

/// The name of the device of the latest report.
fn name_of(replay: &Replay<Device, WaitObserver>) -> &str
    ensures { (setting : Setting) (events : List AnyEvent)
        → HasReplayed ghosts replay.now setting events
        → result.now ≡ latest_name setting.net (reports (chronicle setting events)) }
{
    match replay.observer().device {
        Some(d) => replay.topology().device_name(d),
        None => "",
    }
}

/// Adds the lines of commit wait of the latest report.
fn add_waits(replayed: &mut ReplayWork<WaitObserver>) -> Result<(), NoMemory>
    ensures text { (setting : Setting) (events : List AnyEvent)
        → HasReplayed ghosts replayed.old.replay setting events
        → OnOk result (replayed.new.text.items ≡ replayed.old.text.items
        ++ latest_waits setting.net (reports (chronicle setting events))) }
    ensures same { replayed.new.replay ≡ replayed.old.replay }
{
    let name = name_of(&replayed.replay);
    let told = replayed.replay.observer();
    told.waits.add_lines(&mut replayed.text, name)
}

/// Adds the lines of commit wait, if the line that was accepted last made a report. There were this
/// many reports before it.
fn add_reported(replayed: &mut ReplayWork<WaitObserver>, before: u64) -> Result<(), NoMemory>
    ensures { OnOk result ((setting : Setting) (events : List AnyEvent) (line : List ℕ)
        → before ≡ length (reports (chronicle setting events))
        → Takes (replay_work setting) events line
        (HasReplayed ghosts replayed.old.replay setting) replayed.old.text.items Accepted
        → Takes (order_work setting) events line
        (HasReplayed ghosts replayed.new.replay setting) replayed.new.text.items Accepted) }
{
    if replayed.reports() > before {
        add_waits(replayed)?;
    }
    Ok(())
}

/// Prints how many transactions began and ended, and at how many reports a disorder showed.
fn print_waits(line: &mut LineBuffer, tally: WaitTally)
    ensures { printed line.new ≡ waits_line tally }
{
    line.clear();
    line.push(b"waits ");
    line.push_number(u128::from(tally.begun));
    line.push(b" ");
    line.push_number(u128::from(tally.ended));
    line.push(b" ");
    line.push_number(u128::from(tally.disorders));
    line.push(b"\n");
}

/// Whether there was trouble before, or some disorder.
fn has_trouble(trouble: bool, tally: WaitTally) -> bool
    ensures { result ≡ (trouble || nat_lt 0 tally.disorders) }
{
    trouble || tally.disorders > 0
}

impl LineWork for OrderWork {
    ghost use Rattle.std.specs.Prelude.{[], ◌∷◌};
    ghost use Rattle.sd_files.specs.declared.Status.TheVariants.{Broken, Done};
    ghost use Rattle.sd_commands.specs.replay.Doing.{DoesOrder};

    type Item = Event;

    ghost does = { DoesOrder };

    ghost printing = { λ ordered. ordered.replayed.text.items };

    ghost gives = { Done ∷ Broken ∷ [] };

    fn name(&self) -> &str {
        "schedule"
    }

    fn take(&mut self, alloc: Global, line: &[u8]) -> Result<Taken, NoMemory> {
        let reports = self.replayed.reports();
        match self.replayed.step(alloc, line)? {
            Taken::Accepted => {
                add_reported(&mut self.replayed, reports)?;
                Ok(Taken::Accepted)
            }
            Taken::Refused => Ok(Taken::Refused),
        }
    }

    fn take_front(&mut self, alloc: Global, text: &[u8]) -> Result<Option<usize>, NoMemory> {
        let reports = self.replayed.reports();
        match self.replayed.step_front(alloc, text)? {
            Some(len) => {
                add_reported(&mut self.replayed, reports)?;
                Ok(Some(len))
            }
            None => Ok(None),
        }
    }

    fn ended(&self) -> bool {
        self.replayed.is_over()
    }

    fn finish<O: Sink>(&mut self, _alloc: Global, out: &mut O) -> Result<Status, IoError> {
        let tally = self.replayed.replay.observer().waits.tally();
        let trouble = has_trouble(self.replayed.shows_trouble(), tally);
        self.replayed.print_done();
        send(out, self.replayed.line.printed())?;
        print_waits(&mut self.replayed.line, tally);
        send(out, self.replayed.line.printed())?;
        Ok(status_if(trouble))
    }

    fn printed(&self) -> &[u8] {
        self.replayed.text.as_slice()
    }
}
