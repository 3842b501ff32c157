//! The lines of a log, as a work over a text: what is recorded of each is written before the next
//! one is read.
ghost use Rattle.std.specs.Prelude.{◌≡◌, ◌||◌, false};
ghost use Rattle.sd_sched.specs.Events.{is_end_event};
ghost use Rattle.sd_record.specs.logs.Entries.{event_with};

use crate::Recorder;
use crate::logs::{Entry, print_line_fault, read_entry};
use crate::reasons::print_apply_fault;
use sd_files::work::{LineWork, Taken};
use sd_files::{IoError, Status};
use sd_io::outside::{LineBuffer, Sink};
use sd_num::NoMemory;
use sd_sched::Event;
use std::alloc::Global;
use std::marker::Model;

/// The history that a line leaves. It is there for what is said of a work: none is ever made.
#[derive(Drop)]
pub struct History {
    events: Vec<Event>,
}

impl Model for History {
    ghost use Rattle.std.specs.Prelude.{List};
    ghost use Rattle.sd_sched.specs.declared.Event.{Event};

    ghost Value = { List Event };

    ghost view = { λ h. h.events.items };
}

/// A recorder on its way through a log.
#[derive(Drop)]
pub struct Recording {
    recorder: Recorder,
    /// Room for a reason.
    line: LineBuffer,
    /// Whether a line was refused. No line is taken from then on.
    refused: bool,
    /// Whether the log has ended.
    ended: bool,
}

/// Whether an entry ends its log.
fn is_end(entry: &Entry) -> bool
    ensures { result ≡ is_end_event (event_with entry.now 0) }
{
    matches!(entry, Entry::Plain(Event::End { .. }))
}

/// Whether one of two is so.
fn either(first: bool, second: bool) -> bool
    ensures { result ≡ (first || second) }
{
    first || second
}

impl Recording {
    /// A recorder of whose log nothing was read.
    pub fn new(recorder: Recorder, line: LineBuffer) -> Recording
        ensures { result
            ≡ record { recorder = recorder; line = line; refused = false; ended = false } }
    {
        Recording {
            recorder,
            line,
            refused: false,
            ended: false,
        }
    }
}

impl LineWork for Recording {
    ghost use Rattle.std.specs.Prelude.{[], ◌∷◌, if◌then◌else◌};
    ghost use Rattle.sd_io.specs.outside.Printed.{printed as bytes_in};
    ghost use Rattle.sd_files.specs.declared.Status.TheVariants.{Done};
    ghost use Rattle.sd_record.specs.Doing.{DoesRecord};

    type Item = History;

    ghost does = { DoesRecord };

    ghost printing = { λ r. if r.refused then bytes_in r.line else r.recorder.text.items };

    ghost gives = { Done ∷ [] };

    fn name(&self) -> &str {
        "log"
    }

    fn take(&mut self, alloc: Global, line: &[u8]) -> Result<Taken, NoMemory> {
        if self.refused {
            return Err(NoMemory);
        }
        let entry = match read_entry(line) {
            Ok(entry) => entry,
            Err(fault) => {
                self.refused = true;
                print_line_fault(&mut self.line, fault);
                return Ok(Taken::Refused);
            }
        };
        match self.recorder.take(alloc, &entry)? {
            Some(fault) => {
                self.refused = true;
                print_apply_fault(&mut self.line, fault);
                Ok(Taken::Refused)
            }
            None => {
                self.ended = either(is_end(&entry), self.ended);
                Ok(Taken::Accepted)
            }
        }
    }

    fn ended(&self) -> bool {
        self.ended
    }

    fn finish<O: Sink>(&mut self, _alloc: Global, _out: &mut O) -> Result<Status, IoError> {
        Ok(Status::Done)
    }

    fn printed(&self) -> &[u8] {
        if self.refused {
            self.line.printed()
        } else {
            self.recorder.lines()
        }
    }
}
