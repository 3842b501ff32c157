//! Logs that are merged as they grow.
ghost use Rattle.std.specs.Prelude.{◌≡◌, ◌++◌, ◌∷◌, [], false, map, IfOk, OnOk};
ghost use Rattle.std.specs.List.{range_with_len};
ghost use Rattle.sd_record.specs.merge.Follows.{Grows};
ghost use Rattle.sd_record.specs.merge.Queues.{HasSettled, new_queue};

use crate::merge::feed::{FeedFault, Told, behind_number, log_number, read_told};
use crate::merge::log::Waiting;
use crate::merge::logs::Logs;
use sd_io::outside::LineBuffer;
use sd_num::NoMemory;
use std::alloc::Global;

/// Logs of which lines wait, and what was made of the latest line of the feed.
#[derive(Drop)]
pub struct Merger {
    pub logs: Logs,
    /// What is written for that line, or why it is refused.
    pub text: Vec<u8>,
    /// Room for a reason.
    pub line: LineBuffer,
    /// Whether the feed has a line.
    pub begun: bool,
}

impl Merger {
    /// This many logs, of which nothing is known.
    pub fn new(alloc: Global, count: usize) -> Result<Merger, NoMemory>
        ensures logs { IfOk result (λ m. m.logs ≡ map (λ n. new_queue) (range_with_len 1 count)) }
        ensures begun { IfOk result (λ m. m.begun ≡ false) }
    {
        let line = LineBuffer::new(alloc)?;
        let logs = Logs::new(alloc, count)?;
        Ok(Merger {
            logs,
            text: Vec::new(alloc),
            line,
            begun: false,
        })
    }
}

/// Adds bytes at the end of a text.
pub fn add_bytes(text: &mut Vec<u8>, bytes: &[u8]) -> Result<(), NoMemory>
    ensures { OnOk result (text.new.items ≡ text.old.items ++ bytes.now) }
{
    match text.extend_from_slice(bytes) {
        Ok(()) => Ok(()),
        Err(_) => Err(NoMemory),
    }
}

/// Adds a line and its newline at the end of a text.
fn add_line(text: &mut Vec<u8>, line: &Waiting) -> Result<(), NoMemory>
    ensures { OnOk result (text.new.items ≡ text.old.items ++ (line.now.bytes ++ 10 ∷ [])) }
{
    add_bytes(text, line.bytes())?;
    match text.push(b'\n') {
        Ok(()) => Ok(()),
        Err(_) => Err(NoMemory),
    }
}

/// All lines that are settled leave, and are added to a text.
pub fn settle(logs: &mut Logs, text: &mut Vec<u8>) -> Result<(), NoMemory>
    ensures { OnOk result (HasSettled logs.old logs.new text.old.items text.new.items) }
{
    'lines: while let Some(line) = logs.pop_settled()? {
        add_line(text, &line)?;
    }
    Ok(())
}

/// Takes a line of a feed. What it settles waits still. Where it is refused it is told why.
pub fn grow(alloc: Global, logs: &mut Logs, line: &[u8]) -> Result<Option<FeedFault>, NoMemory>
    ensures { IfOk result (Grows logs.old logs.new line.now) }
{
    let Some(number) = log_number(line, logs.count()) else {
        return Ok(Some(FeedFault::UnknownLog));
    };
    let bytes = behind_number(line);
    let place = number - 1;
    match read_told(bytes) {
        Err(fault) => Ok(Some(FeedFault::Line(fault))),
        Ok(Told::PastAt(reference)) => {
            logs.pass(place, reference)?;
            Ok(None)
        }
        Ok(Told::EntryAt(reference)) => {
            if reference < logs.from(place) {
                return Ok(Some(FeedFault::OutOfOrder));
            }
            logs.push(place, Waiting::new(alloc, number, reference, bytes)?)?;
            Ok(None)
        }
    }
}
