//! How a run ends: its exit code, and the line that says why it was stopped from outside.
ghost use Rattle.std.specs.Prelude.{◌≡◌, ℕ, List, None, Option, codes, map, string_bytes};
ghost use Rattle.std.specs.Process.{exit_status};
ghost use Rattle.std.specs.declared.io.Error.{Error};
ghost use Rattle.sd_files.specs.Statuses.{code_of};
ghost use Rattle.sd_files.specs.edge.Complaints as meaning;
ghost use Rattle.sd_files.specs.edge.Endings.{WritesIfSome};

use crate::Status;
use crate::edge::complaint::{Complaint, complaint_of};
use sd_io::outside::{FileShelf, StdSink, SystemFiles, SystemWriter};
use std::io::Eprint;
use std::process::ExitCode;

/// Where a run says why it was stopped.
pub trait ErrorOutput {
    /// A call that writes what failed, and the system's reason, leaves this behind.
    ghost writes: { Self → List ℕ × Option Error → Self → Type 0 };

    /// Writes one line.
    fn write_line(&mut self, complaint: Complaint<'_>)
        ensures { writes self.old (complaint.entry.what.now, complaint.entry.reason) self.new };
}

/// The lines of a program on standard error, each after its name.
#[derive(Drop)]
pub struct ErrorLines<'p, R: Eprint> {
    /// The name that each line begins with.
    pub program: &'p str,
    /// What has standard error.
    pub system: &'p R,
}

impl<R: Eprint> ErrorOutput for ErrorLines<'_, R> {
    ghost writes = { λ old complaint new. Unit {0} };

    /// The run has its status already, so a line that cannot be written is left out.
    fn write_line(&mut self, complaint: Complaint<'_>) {
        let program = self.program;
        let _ = eprintln!(self.system; "{program}: {complaint}");
    }
}

/// Says why a run over these words was stopped, where it was: the reason is the last that its files
/// or its output kept.
pub fn say_why<F: SystemFiles, W: SystemWriter, E: ErrorOutput>(
    status: Status,
    words: &[String],
    shelf: &FileShelf<F>,
    out: &StdSink<W>,
    errors: &mut E,
)
    ensures { WritesIfSome E.writes
        (meaning.complaint_of status (map string_bytes words.now) shelf.now.last_fault
        out.now.last_fault) errors.old errors.new }
{
    if let Some(complaint) = complaint_of(status, words, shelf.last_fault(), out.last_fault()) {
        errors.write_line(complaint);
    }
}

/// The end of a run for whose words there was no memory.
pub fn end_without_words<E: ErrorOutput>(errors: &mut E) -> ExitCode
    ensures says { E.writes errors.old (codes "out of memory", None) errors.new }
    ensures exit { exit_status result ≡ code_of Status.Memory }
{
    if let Some(complaint) = complaint_of(Status::Memory, &[], None, None) {
        errors.write_line(complaint);
    }
    exit_of(Status::Memory)
}

/// The exit code of a run that ended so.
pub fn exit_of(status: Status) -> ExitCode
    ensures { exit_status result ≡ code_of status }
{
    ExitCode::from(status.code())
}
