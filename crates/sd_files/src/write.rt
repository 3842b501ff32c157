//! Writing what a command has made.
ghost use Rattle.std.specs.Prelude.{◌≡◌, ◌≢◌, ◌↔◌, Err, IfErr, IfOk};
ghost use Rattle.sd_io.specs.outside.Causes.{RisesFor};
ghost use Rattle.sd_io.specs.outside.Pieces.{piece_of};
ghost use Rattle.sd_files.specs.Reasons as texts;
ghost use Rattle.sd_files.specs.Writes.{Adds, WritesOnce, HasOutput};

use crate::Status;
use crate::command_error::{Answer, CommandError, IoError, Refusal};
use crate::lines::refusal_line;
use sd_io::outside::Sink;
use std::alloc::{AllocError, Global};

/// Writes bytes by one write.
pub fn send<O: Sink>(out: &mut O, bytes: &[u8]) -> Result<(), IoError>
    ensures writes { Adds (piece_of bytes.now) (O.written out.old) (O.written out.new) result }
    ensures sink { RisesFor (result ≡ Err IoError.Sink) (O.faults out.old) (O.faults out.new) }
    ensures only { IfErr result (λ why. why ≡ IoError.Sink) }
{
    match out.write(bytes) {
        Ok(()) => Ok(()),
        Err(_) => Err(IoError::Sink),
    }
}

/// Writes an answer, and gives its status.
fn write_once<O: Sink>(answer: &Answer, out: &mut O) -> Result<Status, IoError>
    ensures writes { WritesOnce (λ bytes status. (bytes ≡ answer.now.text.items)
        × (status ≡ answer.now.status)) (O.written out.old) (O.written out.new) result }
    ensures sink { RisesFor (result ≡ Err IoError.Sink) (O.faults out.old) (O.faults out.new) }
    ensures never_shelf { result ≢ Err IoError.Shelf }
{
    match out.write(answer.text.as_slice()) {
        Ok(()) => Ok(answer.status),
        Err(_) => Err(IoError::Sink),
    }
}

/// The line of a file that is refused, and its status.
fn refused(alloc: Global, refusal: &Refusal) -> Result<Answer, AllocError>
    ensures text { IfOk result (λ answer. answer.text.items ≡ texts.refusal_line refusal.now) }
    ensures status { IfOk result (λ answer. answer.status ≡ Status.InputRefused) }
{
    let line = refusal_line(alloc, refusal)?;
    Ok(Answer {
        text: line.into_bytes(),
        status: Status::InputRefused,
    })
}

/// Writes what was made, or the line of the file that is refused, by one write. A run that was
/// stopped before writes nothing.
pub fn write_answer<O: Sink>(
    alloc: Global,
    made: &Result<Answer, CommandError>,
    out: &mut O,
) -> Result<Status, IoError>
    ensures writes { WritesOnce (HasOutput made.now) (O.written out.old)
        (O.written out.new) result }
    ensures shelf { result ≡ Err IoError.Shelf ↔ made.now ≡ Err CommandError.Shelf }
    ensures sink { RisesFor (result ≡ Err IoError.Sink) (O.faults out.old) (O.faults out.new) }
{
    match made {
        Ok(answer) => write_once(answer, out),
        Err(CommandError::Refused(refusal)) => match refused(alloc, refusal) {
            Ok(answer) => write_once(&answer, out),
            Err(_) => Err(IoError::Memory),
        },
        Err(CommandError::Shelf) => Err(IoError::Shelf),
        Err(CommandError::Memory) => Err(IoError::Memory),
    }
}
