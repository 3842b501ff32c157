//! A line's entry: what a schedule's line says, or the numbers after `recv` or `lose`.
ghost use Rattle.std.specs.Prelude.{◌≡◌, ◌≤◌, ◌+◌, ◌^◌, Ok, Err, IfOk, IfErr, IsTrue};
ghost use Rattle.sd_sched.specs.Lines.{event_of_line};
ghost use Rattle.sd_sched.specs.Spelled.{is_within};
ghost use Rattle.sd_record.specs.logs.Entries.{event_with};
ghost use Rattle.sd_record.specs.logs.Lines.{entry_of_line, kind_in, loss_of, named, next_number, plain, receipt_of};

use crate::logs::{Entry, LineFault, MessageName};
use sd_sched::{first_field, read_line, read_number};

/// The greatest number of a field that names no device, link, epoch or term.
const MOST_AMOUNT: u64 = 1 << 60;

/// The greatest number of a device, a link, an epoch or a term.
const MOST_WHICH: u64 = (1 << 32) - 1;

/// What a line begins with.
#[derive(Clone, Copy)]
enum Kind {
    Receipt,
    Loss,
    /// Whatever a schedule's line may begin with, or no word at all.
    Other,
}

/// A number that was read.
#[derive(Clone, Copy)]
pub struct TakenNumber<'a> {
    pub number: u64,
    /// What is left of the line after it.
    pub left: &'a [u8],
}

/// What a line without its newline says, or why it says nothing. Of a `recv` or a `lose` the first
/// fault from the left is answered.
#[tactic(auto, unfolding(crate::specs::logs::Lines::entry_of_line))]
pub fn read_entry(line: &[u8]) -> Result<Entry, LineFault>
    ensures entry { result ≡ entry_of_line line.now }
    ensures within { IfOk result (λ entry. IsTrue (is_within (event_with entry 0))) }
{
    let word = first_field(line);
    let behind = &line[word.len()..];
    match kind_of(word) {
        Kind::Receipt => read_receipt(behind),
        Kind::Loss => read_loss(behind),
        Kind::Other => read_plain(line),
    }
}

/// What a word begins.
#[tactic(auto, unfolding(crate::specs::logs::Lines::kind_in))]
fn kind_of(word: &[u8]) -> Kind
    ensures { result ≡ kind_in word.now }
{
    match word {
        b"recv" => Kind::Receipt,
        b"lose" => Kind::Loss,
        _ => Kind::Other,
    }
}

/// The entry of a line that is one of a schedule.
fn read_plain(line: &[u8]) -> Result<Entry, LineFault>
    ensures entry { result ≡ plain (event_of_line line.now) }
    ensures within { IfOk result (λ entry. IsTrue (is_within (event_with entry 0))) }
{
    match read_line(line) {
        Ok(event) => Ok(Entry::Plain(event)),
        Err(fault) => Err(fault),
    }
}

/// Reads the number of the field after the space at the front. The fields are counted from 1.
pub fn take_number(left: &[u8], place: u8, most: u64) -> Result<TakenNumber<'_>, LineFault>
    ensures number { IfOk result
        (λ taken. next_number place most left.now ≡ Ok (taken.number, taken.left.now)) }
    ensures fault { IfErr result (λ fault. next_number place most left.now ≡ Err fault) }
    ensures within { IfOk result (λ taken. taken.number ≤ most) }
{
    match left {
        [] => Err(LineFault::FieldCount),
        [_, bytes @ ..] => {
            let found = read_number(bytes, most);
            match found.number {
                Some(number) => Ok(TakenNumber {
                    number,
                    left: found.left,
                }),
                None => Err(LineFault::Number(place)),
            }
        }
    }
}

/// Reads the link, the epoch and the stamp of a message, which end the line. The fields are counted
/// on from the place.
fn read_name(receiver: u32, left: &[u8], place: u8) -> Result<MessageName, LineFault>
    requires { place ≤ 8 }
    ensures name { IfOk result (λ name. named receiver place left.now ≡ Ok name) }
    ensures fault { IfErr result (λ fault. named receiver place left.now ≡ Err fault) }
    ensures receiver { IfOk result (λ name. name.receiver ≡ receiver) }
{
    let link = take_number(left, place, MOST_WHICH)?;
    let epoch = take_number(link.left, place + 1, MOST_WHICH)?;
    let term = take_number(epoch.left, place + 2, MOST_WHICH)?;
    let round = take_number(term.left, place + 3, MOST_AMOUNT)?;
    if !round.left.is_empty() {
        return Err(LineFault::FieldCount);
    }
    Ok(MessageName {
        receiver,
        link: link.number as u32,
        epoch: epoch.number as u32,
        term: term.number as u32,
        round: round.number,
    })
}

/// The entry of what is after `recv`.
fn read_receipt(behind: &[u8]) -> Result<Entry, LineFault>
    ensures entry { IfOk result (λ entry. receipt_of behind.now ≡ Ok entry) }
    ensures fault { IfErr result (λ fault. receipt_of behind.now ≡ Err fault) }
    ensures within { IfOk result (λ entry. IsTrue (is_within (event_with entry 0))) }
{
    let reference = take_number(behind, 1, MOST_AMOUNT)?;
    let device = take_number(reference.left, 2, MOST_WHICH)?;
    let counter = take_number(device.left, 3, MOST_AMOUNT)?;
    let name = read_name(device.number as u32, counter.left, 4)?;
    Ok(Entry::Receipt {
        reference: reference.number,
        counter: counter.number,
        name,
    })
}

/// The entry of what is after `lose`.
fn read_loss(behind: &[u8]) -> Result<Entry, LineFault>
    ensures entry { IfOk result (λ entry. loss_of behind.now ≡ Ok entry) }
    ensures fault { IfErr result (λ fault. loss_of behind.now ≡ Err fault) }
    ensures within { IfOk result (λ entry. IsTrue (is_within (event_with entry 0))) }
{
    let reference = take_number(behind, 1, MOST_AMOUNT)?;
    let device = take_number(reference.left, 2, MOST_WHICH)?;
    let name = read_name(device.number as u32, device.left, 3)?;
    Ok(Entry::Loss {
        reference: reference.number,
        name,
    })
}
