//! What the program says on standard error of a run that was stopped from outside.
ghost use Rattle.std.specs.Prelude.{◌≡◌, map, option_map, string_bytes};
ghost use Rattle.sd_files.specs.edge.Complaints as meaning;

use crate::Status;
use sd_io::outside::LastFault;
use std::{fmt, io};

/// One line, without its newline: what failed, and the system's reason where it is known.
#[derive(Drop)]
pub struct Complaint<'w> {
    /// A file, the output, or that memory ran out.
    pub what: &'w str,
    /// The last error that the system gave there.
    pub reason: Option<io::Error>,
}

impl fmt::Display for Complaint<'_> {
    fn fmt<W: fmt::Write>(&self, f: &mut fmt::Formatter<W>) -> fmt::Result {
        // The name of a file may hold a newline.
        let what = self.what.escape_debug();
        match self.reason {
            Some(reason) => write!(f, "{what}: {reason}"),
            None => write!(f, "{what}"),
        }
    }
}

/// The name of a file by its number, from 1. The files of a command are the words after its own,
/// and it opens them in the order of the words.
fn file_named<'w>(words: &'w [String], number: u64) -> &'w str
    ensures { result.now ≡ meaning.file_named (map string_bytes words.now) number }
{
    match words.get(number as usize) {
        Some(word) => word.as_str(),
        None => "a file",
    }
}

/// What is said where a file could not be opened or read.
fn unread<'w>(words: &'w [String], fault: Option<LastFault>) -> Complaint<'w>
    ensures { (result.what.now, result.reason)
        ≡ meaning.unread (map string_bytes words.now) fault }
{
    match fault {
        Some(LastFault { file, reason }) => Complaint {
            what: file_named(words, file),
            reason: Some(reason),
        },
        None => Complaint {
            what: "a file",
            reason: None,
        },
    }
}

/// What is said of a run over these words that ended with this status, where `fault` is the last
/// of its files and `reason` the last of its output.
pub fn complaint_of<'w>(
    status: Status,
    words: &'w [String],
    fault: Option<LastFault>,
    reason: Option<io::Error>,
) -> Option<Complaint<'w>>
    ensures { option_map (λ c. (c.what.now, c.reason)) result
        ≡ meaning.complaint_of status (map string_bytes words.now) fault reason }
{
    match status {
        Status::ShelfFault => Some(unread(words, fault)),
        Status::SinkFault => Some(Complaint {
            what: "standard output",
            reason,
        }),
        Status::Memory => Some(Complaint {
            what: "out of memory",
            reason: None,
        }),
        Status::Done
        | Status::PlanRefused
        | Status::Usage
        | Status::InputRefused
        | Status::Broken => None,
    }
}
