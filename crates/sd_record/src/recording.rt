//! One entry after the other.
ghost use Rattle.std.specs.Prelude.{◌≡◌, ◌≤◌, ◌^◌, ◌++◌, List, None, Ok, OnOk, IfOk, IsTrue};
ghost use Rattle.sd_num.specs.Lists.{map_or};
ghost use Rattle.sd_sched.specs.declared.Event.{Event as AnyEvent};
ghost use Rattle.sd_sched.specs.Spelled.{is_within};
ghost use Rattle.sd_record.specs.logs.Entries.{event_with, name_of};
ghost use Rattle.sd_history.specs.World.{Setting};
ghost use Rattle.sd_history.specs.Chronicle.{chronicle};
ghost use Rattle.sd_record.specs.Laws.{HasRecorded};
ghost use Rattle.sd_record.specs.Naming.{number_named};
ghost use Rattle.sd_record.specs.Printed.{line_bytes};
ghost use Rattle.sd_record.specs.Recorded as words;
ghost use Rattle.sd_record.specs.Standing.{Becomes, Records, StandsFor};

use crate::logs::Entry;
use crate::{ApplyFault, Recorder};
use sd_fleet::Outcome;
use sd_num::NoMemory;
use sd_sched::{Event, line_text};
use std::alloc::Global;

/// Adds the line of an event to a text.
fn add_line(alloc: Global, text: &mut Vec<u8>, event: &Event) -> Result<(), NoMemory>
    ensures { OnOk result (text.new.items ≡ text.old.items ++ line_bytes event.now) }
{
    let line = line_text(alloc, event)?;
    match text.extend_from_slice(line.as_slice()) {
        Ok(()) => Ok(()),
        Err(_) => Err(NoMemory),
    }
}

/// Whether an event is refused, and not out of memory.
fn is_refusal(fault: ApplyFault) -> bool
    ensures { result ≡ words.is_refusal fault }
{
    !matches!(fault, ApplyFault::Memory)
}

impl Recorder {
    /// Takes an entry: first each message is lost that can be received no more, at its last moment,
    /// then the event of the entry happens. Their lines are lent by `lines`. Where one of these is
    /// refused it is told why, and no entry is to be taken from then on.
    pub fn take(&mut self, alloc: Global, entry: &Entry) -> Result<Option<ApplyFault>, NoMemory>
        requires { IsTrue (is_within (event_with entry.now 0)) }
        ensures records { IfOk result
            (Records self.old self.new (λ setting. words.record_entry setting entry.now)) }
        // Only losses come before the event of the entry, each at the last moment of its message.
        ensures lawful { result ≡ Ok None → (setting : Setting) (events : List AnyEvent)
            → StandsFor self.old setting events
            → HasRecorded self.new setting entry.now events }
    {
        self.text.clear();
        if let Some(fault) = self.lose_all(alloc, entry.reference())? {
            return Ok(Some(fault));
        }
        let number = self.number_in(entry)?;
        let event = entry.event(number);
        self.happen(alloc, &event)
    }

    /// The number of the message that an entry names, and 0 where it names none that is on its way.
    fn number_in(&mut self, entry: &Entry) -> Result<u64, NoMemory>
        ensures number { IfOk result (λ number. (setting : Setting) (events : List AnyEvent)
            → StandsFor self.old setting events
            → number ≡ map_or (name_of entry.now) 0
            (λ name. number_named name (chronicle setting events))) }
        ensures within { IfOk result (λ number. number ≤ 2 ^ 60) }
        ensures stands { OnOk result ((setting : Setting) (events : List AnyEvent)
            → StandsFor self.old setting events → StandsFor self.new setting events) }
        ensures text { self.new.text ≡ self.old.text }
    {
        match entry.name() {
            Some(name) => self.number_of(&name),
            None => Ok(0),
        }
    }

    /// Each message is lost that can be received no more at a reference, the soonest first.
    fn lose_all(&mut self, alloc: Global, reference: u64) -> Result<Option<ApplyFault>, NoMemory>
        requires { reference ≤ 2 ^ 60 }
        ensures { IfOk result
            (Becomes self.old self.new (λ setting. words.lose_all setting reference)) }
    {
        'losses: for _ in 0..u64::MAX {
            let Some(ending) = self.next_lost(reference)? else {
                return Ok(None);
            };
            let loss = Event::Lose {
                reference: ending.last,
                message: ending.number,
            };
            if let Some(fault) = self.happen(alloc, &loss)? {
                return Ok(Some(fault));
            }
        }
        Ok(None)
    }

    /// An event happens, and its line is added to the text, unless it is refused.
    fn happen(&mut self, alloc: Global, event: &Event) -> Result<Option<ApplyFault>, NoMemory>
        requires { IsTrue (is_within event.now) }
        ensures { IfOk result (Becomes self.old self.new (λ setting. words.add setting event.now)) }
    {
        if let Err(fault) = self.fleet.prepare(alloc, event) {
            if !is_refusal(fault) {
                return Err(NoMemory);
            }
            return Ok(Some(fault));
        }
        add_line(alloc, &mut self.text, event)?;
        let mut outcome = Outcome::nothing();
        self.fleet.happen(event, &mut outcome);
        Ok(None)
    }
}
