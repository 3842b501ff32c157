//! A line of a feed: the number of a log, and what is told of the log.
ghost use Rattle.std.specs.Prelude.{◌≡◌, ◌≤◌, ◌^◌, ◌+◌, Ok, Err, IfOk, IfErr, IfSome, length};
ghost use Rattle.sd_io.specs.outside.Printed.{printed};
ghost use Rattle.sd_record.specs.merge.Feeds as words;
ghost use Rattle.sd_record.specs.merge.Reasons.{reason};

use crate::logs::{LineFault, print_line_fault, read_entry, take_number};
use sd_io::outside::LineBuffer;
use sd_sched::{first_field, read_number};

/// The greatest reference.
const MOST_REFERENCE: u64 = 1 << 60;

/// Why a line of a feed is refused.
#[derive(Clone, Copy, Debug, PartialEq, Eq)]
pub enum FeedFault {
    /// It does not begin with the number of a log.
    UnknownLog,
    /// Its entry comes before a reference that the log has reached.
    OutOfOrder,
    /// What is after the number is none of a log's lines.
    Line(LineFault),
}

/// What a line tells of a log.
#[derive(Clone, Copy, Debug, PartialEq, Eq)]
pub enum Told {
    /// It goes on with an entry at this reference.
    EntryAt(u64),
    /// It brings nothing before this reference any more.
    PastAt(u64),
}

/// The number of the log at the front of a line.
pub fn log_number(line: &[u8], count: usize) -> Option<usize>
    ensures number { result ≡ words.log_number count line.now }
    ensures within { IfSome result (λ n. n ≤ count) }
    ensures some { IfSome result (λ n. 1 ≤ n) }
{
    match read_number(line, count as u64).number {
        Some(number) if number >= 1 => Some(number as usize),
        _ => None,
    }
}

/// What follows it and a space.
pub fn behind_number(line: &[u8]) -> &[u8]
    ensures { result.now ≡ words.behind_number line.now }
{
    let number = first_field(line);
    match line.get(number.len() + 1..) {
        Some(behind) => behind,
        None => &[],
    }
}

/// Whether a word says that a log has gone past a reference.
#[tactic(auto, unfolding(crate::specs::merge::Feeds::is_past))]
fn is_past(word: &[u8]) -> bool
    ensures { result ≡ words.is_past word.now }
{
    matches!(word, b"past")
}

/// Reads the reference after the word `past`, which ends the line.
fn read_past(behind: &[u8]) -> Result<Told, LineFault>
    ensures told { IfOk result (λ told. words.past_in behind.now ≡ Ok told) }
    ensures fault { IfErr result (λ fault. words.past_in behind.now ≡ Err fault) }
{
    let reference = take_number(behind, 1, MOST_REFERENCE)?;
    if !reference.left.is_empty() {
        return Err(LineFault::FieldCount);
    }
    Ok(Told::PastAt(reference.number))
}

/// Reads the reference of an entry.
fn read_entry_at(bytes: &[u8]) -> Result<Told, LineFault>
    ensures told { IfOk result (λ told. words.entry_in bytes.now ≡ Ok told) }
    ensures fault { IfErr result (λ fault. words.entry_in bytes.now ≡ Err fault) }
    ensures within { IfOk result (λ told. words.reference_told told ≤ 2 ^ 60) }
{
    let entry = read_entry(bytes)?;
    Ok(Told::EntryAt(entry.reference()))
}

/// What is told of a log.
#[tactic(auto, unfolding(crate::specs::merge::Feeds::told_in))]
pub fn read_told(bytes: &[u8]) -> Result<Told, LineFault>
    ensures told { result ≡ words.told_in bytes.now }
    ensures within { IfOk result (λ told. words.reference_told told ≤ 2 ^ 60) }
{
    let word = first_field(bytes);
    if is_past(word) {
        read_past(&bytes[word.len()..])
    } else {
        read_entry_at(bytes)
    }
}

/// Prints why a line of a feed is refused, in at most 64 bytes.
pub fn print_fault(out: &mut LineBuffer, fault: FeedFault)
    ensures text { printed out.new ≡ reason fault }
    ensures short { length (printed out.new) ≤ 64 }
{
    match fault {
        FeedFault::UnknownLog => {
            out.clear();
            out.push(b"UnknownLog");
        }
        FeedFault::OutOfOrder => {
            out.clear();
            out.push(b"OutOfOrder");
        }
        FeedFault::Line(fault) => print_line_fault(out, fault),
    }
}
