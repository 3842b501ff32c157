//! `solo`: the schedule of one device, line by line, and what is written for it.
ghost use Rattle.std.specs.Prelude.{◌≡◌, ◌≤◌, ℕ, [], ◌∷◌, true, Ok, Err, Some, IsTrue, IfOk, IfErr, IfSome, OnOk, OnErr};
ghost use Rattle.sd_io.specs.outside.Causes.{RisesFor};
ghost use Rattle.sd_io.specs.outside.Shelves.{KeepsShelf};
ghost use Rattle.sd_io.specs.stream.Reader.{IsNear};
ghost use Rattle.sd_files.specs.Statuses.{is_among};
ghost use Rattle.sd_files.specs.work.Ending.{LeavesAt};
ghost use Rattle.sd_files.specs.work.Works.{refused_part};
ghost use Rattle.sd_top.specs.Schedules.{solo_work};
ghost use Rattle.sd_top.specs.SoloWrites.{SoloIn};

use crate::lines::{print_done, print_report};
use crate::reasons::print_solo_fault;
use sd_commands::replay::print_line_fault;
use sd_commands::solo::{Solo, SoloFault, read_solo_front, read_solo_line};
use sd_files::work::{LineWork, Taken, work_through};
use sd_files::{IoError, Status, send};
use sd_io::outside::{LineBuffer, Shelf, Sink};
use sd_num::NoMemory;
use sd_sched::Event;
use std::alloc::Global;

/// A device alone, and the line that was printed for its latest event. It takes no memory.
#[derive(Drop)]
struct Alone {
    device: Solo,
    line: LineBuffer,
}

impl Alone {
    ghost use Rattle.std.specs.Prelude.{List};
    ghost use Rattle.sd_io.specs.outside.Printed.{printed as bytes_in};
    ghost use Rattle.sd_sched.specs.declared.Event.{Event as AnyEvent};
    ghost use Rattle.sd_commands.specs.solo.Histories.{is_known, refusal};
    ghost use Rattle.sd_commands.specs.solo.Lines.{solo_event};
    ghost use Rattle.sd_commands.specs.solo.Registers.{StandsFor};
    ghost use Rattle.sd_files.specs.declared.work.Taken.TheVariants.{Accepted};
    ghost use Rattle.sd_files.specs.work.Taking.{Takes};
    ghost use Rattle.sd_files.specs.work.Works.{Work};
    ghost use Rattle.sd_top.specs.Alone.{IsAlone};

    /// The device takes the event of a line, and what it reports is printed.
    fn apply(&mut self, event: &Event) -> Result<(), SoloFault>
        requires known { IsTrue (is_known event.now) }
        ensures takes { OnOk result ((work : Work AnyEvent) (xs : List AnyEvent) (line : List ℕ)
            → IsAlone self.old work xs → solo_event line ≡ Ok event.now
            → Takes work xs line (IsAlone self.new work) (bytes_in self.new.line) Accepted) }
        ensures refused { IfErr result (λ fault. (xs : List AnyEvent)
            → StandsFor self.old.device xs → refusal xs event.now ≡ Some fault) }
        ensures same { OnErr result (self.new.device ≡ self.old.device) }
    {
        match self.device.apply(event) {
            Ok(Some(report)) => print_report(&mut self.line, self.device.events(), report),
            Ok(None) => self.line.clear(),
            Err(fault) => return Err(fault),
        }
        Ok(())
    }
}

impl LineWork for Alone {
    ghost use Rattle.std.specs.Prelude.{[], ◌∷◌};
    ghost use Rattle.sd_top.specs.Alone.{IsAlone};
    ghost use Rattle.sd_io.specs.outside.Printed.{printed as bytes_in};
    ghost use Rattle.sd_files.specs.declared.Status.TheVariants.{Done};

    type Item = Event;

    ghost does = { IsAlone };

    ghost printing = { λ alone. bytes_in alone.line };

    ghost gives = { Done ∷ [] };

    fn name(&self) -> &str {
        "schedule"
    }

    fn take(&mut self, _alloc: Global, line: &[u8]) -> Result<Taken, NoMemory> {
        let event = match read_solo_line(line) {
            Ok(event) => event,
            Err(fault) => {
                print_line_fault(&mut self.line, fault);
                return Ok(Taken::Refused);
            }
        };
        match self.apply(&event) {
            Ok(()) => Ok(Taken::Accepted),
            Err(fault) => {
                print_solo_fault(&mut self.line, fault);
                Ok(Taken::Refused)
            }
        }
    }

    fn take_front(&mut self, _alloc: Global, text: &[u8]) -> Result<Option<usize>, NoMemory> {
        let Some(front) = read_solo_front(text) else {
            return Ok(None);
        };
        match self.apply(&front.event) {
            Ok(()) => Ok(Some(front.len)),
            // `take` says why.
            Err(_) => Ok(None),
        }
    }

    fn ended(&self) -> bool {
        self.device.ended()
    }

    fn finish<O: Sink>(&mut self, _alloc: Global, out: &mut O) -> Result<Status, IoError> {
        print_done(&mut self.line, self.device.events(), self.device.reports());
        send(out, self.line.printed())?;
        Ok(Status::Done)
    }

    fn printed(&self) -> &[u8] {
        self.line.printed()
    }
}

/// Reads the begun schedule of one device line by line, and writes its reports. All its memory is
/// taken at the start.
pub fn replay_solo<S: Shelf, O: Sink>(
    alloc: Global,
    shelf: &mut S,
    out: &mut O,
) -> Result<Status, IoError>
    requires { IsTrue (S.begun shelf.old) }
    ensures outcome { IfSome (S.rest shelf.old)
        (λ text. LeavesAt true (SoloIn text) (O.written out.old) (O.written out.new) result) }
    ensures gives { IfOk result
        (λ status. IsTrue (is_among (Status.Done ∷ Status.InputRefused ∷ []) status)) }
    ensures near { result ≡ Ok Status.InputRefused
        → IfSome (S.rest shelf.old)
        (λ text. IsNear (Some (refused_part solo_work text)) (S.rest shelf.new)) }
    ensures shelf { KeepsShelf S.Shelf (result ≡ Err IoError.Shelf) shelf.old shelf.new }
    ensures sink { RisesFor (result ≡ Err IoError.Sink) (O.faults out.old) (O.faults out.new) }
    ensures begun { IsTrue (S.begun shelf.new) }
{
    let line = match LineBuffer::new(alloc) {
        Ok(line) => line,
        Err(_) => return Err(IoError::Memory),
    };
    let alone = Alone {
        device: Solo::new(),
        line,
    };
    work_through(alloc, shelf, alone, out)
}
