//! A replay on its way through a schedule: the work of `replay`.
ghost use Rattle.std.specs.Prelude.{◌≡◌, ◌≤◌, ◌∷◌, [], List, length, codes, decimal, Ok, IfOk, IfSome, OnOk};
ghost use Rattle.std.specs.List.{list_any};
ghost use Rattle.sd_num.specs.Texts.{text_of};
ghost use Rattle.sd_io.specs.outside.Printed.{printed};
ghost use Rattle.sd_sched.specs.declared.Event.{Event as AnyEvent};
ghost use Rattle.sd_sched.specs.Events.{is_end_event};
ghost use Rattle.sd_history.specs.World.{Setting};
ghost use Rattle.sd_history.specs.Chronicle.{chronicle};
ghost use Rattle.sd_history.specs.Lines.{reports};
ghost use Rattle.sd_history.specs.Text.{done_bytes};
ghost use Rattle.sd_replay.specs.Devices.{HasReplayed};
ghost use Rattle.sd_replay.specs.Tallies.{tally_of, shows_trouble};
ghost use Rattle.sd_io.specs.stream.Windows.{EndsAt};
ghost use Rattle.sd_files.specs.work.Taking.{Takes, TakesFront};
ghost use Rattle.sd_replay.specs.Replaying.{lines_in};
ghost use Rattle.sd_commands.specs.replay.Reasoned.{HasReason};
ghost use Rattle.sd_commands.specs.replay.Replays as words;

use crate::replay::reasons::print_reason;
use sd_device::Device;
use sd_device::msg::Observer;
use sd_files::work::{LineWork, Taken};
use sd_files::{IoError, Status, send};
use sd_io::outside::{LineBuffer, Sink};
use sd_num::NoMemory;
use sd_replay::{Event, Replay, ReplayFault, Tally};
use sd_sched::read_buffered_line;
use std::alloc::Global;

/// A replay of devices, and what is written for the latest line of its schedule.
#[derive(Drop)]
pub struct ReplayWork<V: Observer> {
    pub replay: Replay<Device, V>,
    pub text: Vec<u8>,
    /// Room for one line: a reason, or the last line of all.
    pub line: LineBuffer,
}

/// Puts bytes in place of what was there.
fn put(text: &mut Vec<u8>, bytes: &[u8]) -> Result<(), NoMemory>
    ensures { OnOk result (text.new.items ≡ bytes.now) }
{
    text.clear();
    // Nearly all events have no lines.
    if bytes.is_empty() {
        return Ok(());
    }
    match text.extend_from_slice(bytes) {
        Ok(()) => Ok(()),
        Err(_) => Err(NoMemory),
    }
}

/// Whether a premise broke or an alarm was due.
fn has_trouble(tally: Tally) -> bool
    ensures { result ≡ shows_trouble tally }
{
    tally.broken > 0 || tally.alarms > 0
}

/// Prints how many events and reports there were.
fn print_tally(line: &mut LineBuffer, tally: Tally)
    ensures { printed line.new ≡ text_of
        (codes "done" ∷ decimal tally.events ∷ decimal tally.reports ∷ []) }
{
    line.clear();
    line.push(b"done ");
    line.push_number(u128::from(tally.events));
    line.push(b" ");
    line.push_number(u128::from(tally.reports));
    line.push(b"\n");
}

/// The status of a schedule that has ended.
pub fn status_if(trouble: bool) -> Status
    ensures { result ≡ words.status_if trouble }
{
    if trouble {
        Status::Broken
    } else {
        Status::Done
    }
}

impl<V: Observer> ReplayWork<V> {
    /// A replay of whose schedule nothing was read.
    pub fn new(alloc: Global, replay: Replay<Device, V>, line: LineBuffer) -> ReplayWork<V>
        ensures { result.replay ≡ replay }
    {
        ReplayWork {
            replay,
            text: Vec::new(alloc),
            line,
        }
    }

    /// Takes the next line. What is written for it, or why it is refused, is put into the text.
    pub fn step(&mut self, alloc: Global, line: &[u8]) -> Result<Taken, NoMemory>
        ensures takes { IfOk result (λ what. (setting : Setting) (events : List AnyEvent)
            → HasReplayed V.Observer self.old.replay setting events
            → Takes (words.replay_work setting) events line.now
            (HasReplayed V.Observer self.new.replay setting) self.new.text.items what) }
        ensures short { result ≡ Ok Taken.Refused → length self.new.text.items ≤ 64 }
    {
        match self.replay.step(alloc, line) {
            Ok(()) => self.accept(),
            Err(fault) => self.refuse(fault),
        }
    }

    /// Takes the line at the front of a text, if it is of a kind that nearly all are and its event
    /// is accepted. Any other is left to `step`, which says why one is refused.
    pub fn step_front(&mut self, alloc: Global, text: &[u8]) -> Result<Option<usize>, NoMemory>
        ensures ends { IfOk result (λ found. IfSome found (λ len. EndsAt text.now len)) }
        ensures takes { IfOk result (λ found. (setting : Setting) (events : List AnyEvent)
            → HasReplayed V.Observer self.old.replay setting events
            → TakesFront (words.replay_work setting) events text.now
            (HasReplayed V.Observer self.new.replay setting) self.new.text.items found) }
    {
        let Some(front) = read_buffered_line(text) else {
            return Ok(None);
        };
        match self.replay.step_event(alloc, &front.event) {
            Ok(()) => {
                self.accept()?;
                Ok(Some(front.len))
            }
            Err(_) => Ok(None),
        }
    }

    /// Puts the lines of the latest event into the text.
    fn accept(&mut self) -> Result<Taken, NoMemory>
        ensures text { OnOk result (self.new.text.items ≡ lines_in self.old.replay) }
        ensures accepted { IfOk result (λ what. what ≡ Taken.Accepted) }
        ensures same { self.new.replay ≡ self.old.replay }
    {
        put(&mut self.text, self.replay.lines())?;
        Ok(Taken::Accepted)
    }

    /// Puts why a line is refused into the text.
    fn refuse(&mut self, fault: ReplayFault) -> Result<Taken, NoMemory>
        ensures text { OnOk result (HasReason fault self.new.text.items) }
        ensures refused { IfOk result (λ what. what ≡ Taken.Refused) }
        ensures short { OnOk result (length self.new.text.items ≤ 64) }
        ensures same { self.new.replay ≡ self.old.replay }
    {
        print_reason(&mut self.line, fault)?;
        put(&mut self.text, self.line.printed())?;
        Ok(Taken::Refused)
    }

    /// Whether the schedule has ended.
    pub fn is_over(&self) -> bool
        ensures { (setting : Setting) (events : List AnyEvent)
            → HasReplayed V.Observer self.now.replay setting events
            → result ≡ list_any is_end_event events }
    {
        self.replay.ended()
    }

    /// How many reports there were.
    pub fn reports(&self) -> u64
        ensures { (setting : Setting) (events : List AnyEvent)
            → HasReplayed V.Observer self.now.replay setting events
            → result ≡ length (reports (chronicle setting events)) }
    {
        self.replay.tally().reports
    }

    /// Whether a premise broke or an alarm was due.
    pub fn shows_trouble(&self) -> bool
        ensures { (setting : Setting) (events : List AnyEvent)
            → HasReplayed V.Observer self.now.replay setting events
            → result ≡ shows_trouble (tally_of setting (chronicle setting events)) }
    {
        has_trouble(self.replay.tally())
    }

    /// Prints the last line of a schedule that has ended.
    pub fn print_done(&mut self)
        ensures done { (setting : Setting) (events : List AnyEvent)
            → HasReplayed V.Observer self.old.replay setting events
            → printed self.new.line ≡ done_bytes (chronicle setting events) }
        ensures same { self.new.replay ≡ self.old.replay }
    {
        print_tally(&mut self.line, self.replay.tally());
    }
}

impl<V: Observer> LineWork for ReplayWork<V> {
    ghost use Rattle.std.specs.Prelude.{[], ◌∷◌};
    ghost use Rattle.sd_files.specs.declared.Status.TheVariants.{Broken, Done};
    ghost use Rattle.sd_commands.specs.replay.Doing.{DoesReplay};

    type Item = Event;

    ghost does = { DoesReplay V.Observer };

    ghost printing = { λ replayed. replayed.text.items };

    ghost gives = { Done ∷ Broken ∷ [] };

    fn name(&self) -> &str {
        "schedule"
    }

    fn take(&mut self, alloc: Global, line: &[u8]) -> Result<Taken, NoMemory> {
        self.step(alloc, line)
    }

    fn take_front(&mut self, alloc: Global, text: &[u8]) -> Result<Option<usize>, NoMemory> {
        self.step_front(alloc, text)
    }

    fn ended(&self) -> bool {
        self.is_over()
    }

    fn finish<O: Sink>(&mut self, _alloc: Global, out: &mut O) -> Result<Status, IoError> {
        let trouble = self.shows_trouble();
        self.print_done();
        send(out, self.line.printed())?;
        Ok(status_if(trouble))
    }

    fn printed(&self) -> &[u8] {
        self.text.as_slice()
    }
}
