//! The way through a text: every line is taken, and what is due for it is written.
ghost use Rattle.std.specs.Prelude.{◌≡◌, ◌≤◌, ◌^◌, ◌∷◌, [], true, Ok, Err, Some, IsTrue, IfOk, IfSome};
ghost use Rattle.sd_io.specs.outside.Causes.{RisesFor};
ghost use Rattle.sd_io.specs.outside.Shelves.{KeepsShelf};
ghost use Rattle.sd_io.specs.stream.Reader.{IsNear};
ghost use Rattle.sd_files.specs.Answering.{InWrites};
ghost use Rattle.sd_files.specs.Statuses.{is_among};
ghost use Rattle.sd_files.specs.work.Ending.{LeavesAt};
ghost use Rattle.sd_files.specs.work.Works.{Work, InSteps, IsOutcome, refused_part};
ghost use Rattle.sd_files.specs.work.WholeLines.{WritesWhole};
ghost use Rattle.sd_files.specs.work.Nexts.{HasTakenNext};

use crate::work::LineWork;
use crate::work::progress::Progress;
use crate::{IoError, Status};
use sd_io::outside::{LineBuffer, Shelf, Sink};
use sd_io::stream::{Buffer, LineReader, StreamFault};
use std::alloc::Global;

/// Goes through the begun text of a shelf line by line, and writes what the work makes of it. One
/// buffer to read into and one for a refusal are taken at the start.
pub fn work_through<S: Shelf, O: Sink, W: LineWork>(
    alloc: Global,
    shelf: &mut S,
    work: W,
    out: &mut O,
) -> Result<Status, IoError>
    requires begun { IsTrue (S.begun shelf.old) }
    ensures outcome { (w : Work W.Item) → W.does work w [] → WritesWhole w
        → IfSome (S.rest shelf.old)
        (λ text. LeavesAt true (InWrites (InSteps w text) (IsOutcome w text)) (O.written out.old)
        (O.written out.new) result) }
    ensures gives { IfOk result
        (λ status. IsTrue (is_among (Status.InputRefused ∷ W.gives) status)) }
    ensures near { (w : Work W.Item) → W.does work w [] → result ≡ Ok Status.InputRefused
        → IfSome (S.rest shelf.old)
        (λ text. IsNear (Some (refused_part w text)) (S.rest shelf.new)) }
    ensures shelf { KeepsShelf S.Shelf (result ≡ Err IoError.Shelf) shelf.old shelf.new }
    ensures sink { RisesFor (result ≡ Err IoError.Sink) (O.faults out.old) (O.faults out.new) }
    ensures begun { IsTrue (S.begun shelf.new) }
{
    let buffer = match Buffer::new(alloc) {
        Ok(buffer) => buffer,
        Err(_) => return Err(IoError::Memory),
    };
    let line = match LineBuffer::new(alloc) {
        Ok(line) => line,
        Err(_) => return Err(IoError::Memory),
    };
    let mut reader = LineReader::over(shelf, buffer);
    let mut progress = Progress {
        work,
        taken: 0,
        line,
    };
    'lines: loop {
        if let Some(status) = take_line(alloc, &mut reader, &mut progress, out)? {
            return Ok(status);
        }
    }
}

/// Takes the next line. It answers the status where that is the last one.
fn take_line<S: Shelf, O: Sink, W: LineWork>(
    alloc: Global,
    reader: &mut LineReader<'_, S>,
    progress: &mut Progress<W>,
    out: &mut O,
) -> Result<Option<Status>, IoError>
    requires more { progress.old.taken ≤ 2 ^ 32 }
    ensures { HasTakenNext S.Shelf O.Sink W.LineWork reader.old reader.new progress.old progress.new
        out.old out.new result }
{
    match progress.work.take_front(alloc, reader.window()) {
        Ok(Some(len)) => {
            reader.pass_line(len);
            progress.write_accepted(out)?;
            Ok(None)
        }
        Ok(None) => take_lent(alloc, reader, progress, out),
        Err(_) => Err(IoError::Memory),
    }
}

/// Takes the next line as it is lent. It answers the status where that is the last one.
fn take_lent<S: Shelf, O: Sink, W: LineWork>(
    alloc: Global,
    reader: &mut LineReader<'_, S>,
    progress: &mut Progress<W>,
    out: &mut O,
) -> Result<Option<Status>, IoError>
    requires more { progress.old.taken ≤ 2 ^ 32 }
    ensures { HasTakenNext S.Shelf O.Sink W.LineWork reader.old reader.new progress.old progress.new
        out.old out.new result }
{
    match reader.next_line() {
        Ok(Some(line)) => progress.take_line(alloc, line, out),
        Ok(None) => Ok(Some(progress.finish(alloc, out)?)),
        Err(StreamFault::ReadFault) => Err(IoError::Shelf),
        Err(StreamFault::LongLine) => Ok(Some(progress.refuse_for(b"LongLine", out)?)),
        Err(StreamFault::Limit) => Ok(Some(progress.refuse_for(b"Limit", out)?)),
    }
}
