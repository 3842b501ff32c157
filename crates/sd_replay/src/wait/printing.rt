//! How the lines of commit wait are printed.
ghost use Rattle.std.specs.Prelude.{◌≡◌, ◌++◌, ◌∷◌, [], OnOk, codes, decimal};
ghost use Rattle.sd_num.specs.Texts.{text_of};
ghost use Rattle.sd_replay.specs.wait.Waiting.{shown_bytes, ended_bytes};

use crate::wait::transactions::Transaction;
use sd_num::NoMemory;

/// What a report shows beside what ends at it: what it begins, and the transaction of which it
/// shows a disorder.
#[derive(Clone, Copy, Debug, PartialEq, Eq)]
pub(crate) struct Shown {
    pub(crate) begin: Transaction,
    pub(crate) disorder: Option<Transaction>,
}

/// Adds bytes.
fn add(text: &mut Vec<u8>, bytes: &[u8]) -> Result<(), NoMemory>
    ensures { OnOk result (text.new.items ≡ text.old.items ++ bytes.now) }
{
    match text.extend_from_slice(bytes) {
        Ok(()) => Ok(()),
        Err(_) => Err(NoMemory),
    }
}

/// Adds the digits of a number.
fn add_number(text: &mut Vec<u8>, number: u128) -> Result<(), NoMemory>
    ensures { OnOk result (text.new.items ≡ text.old.items ++ decimal number) }
{
    let mut digits = itoa::Buffer::new();
    add(text, digits.format(number).as_bytes())
}

/// Adds the line of a word and of two lines of the schedule.
fn add_pair(text: &mut Vec<u8>, word: &str, line: u64, begin: u64) -> Result<(), NoMemory>
    ensures { OnOk result (text.new.items ≡ text.old.items
        ++ text_of (word.now ∷ decimal line ∷ decimal begin ∷ [])) }
{
    add(text, word.as_bytes())?;
    add(text, b" ")?;
    add_number(text, u128::from(line))?;
    add(text, b" ")?;
    add_number(text, u128::from(begin))?;
    add(text, b"\n")
}

/// Adds the lines of the transactions that ended at a line.
fn add_ended(text: &mut Vec<u8>, line: u64, ended: &[Transaction]) -> Result<(), NoMemory>
    ensures { OnOk result (text.new.items ≡ text.old.items ++ ended_bytes line ended.now) }
{
    for t in ended {
        add_pair(text, "ended", line, t.line)?;
    }
    Ok(())
}

/// Adds the line of the transaction that begins.
fn add_begin(text: &mut Vec<u8>, begin: Transaction, name: &str) -> Result<(), NoMemory>
    ensures { OnOk result (text.new.items ≡ text.old.items
        ++ text_of (codes "begin" ∷ decimal begin.line ∷ name.now ∷ decimal begin.stamp ∷ [])) }
{
    add(text, b"begin ")?;
    add_number(text, u128::from(begin.line))?;
    add(text, b" ")?;
    add(text, name.as_bytes())?;
    add(text, b" ")?;
    add_number(text, begin.stamp)?;
    add(text, b"\n")
}

/// Adds the lines of a report.
pub(crate) fn print(
    text: &mut Vec<u8>,
    ended: &[Transaction],
    shown: Shown,
    name: &str,
) -> Result<(), NoMemory>
    ensures { OnOk result (text.new.items ≡ text.old.items
        ++ shown_bytes ended.now shown name.now) }
{
    let line = shown.begin.line;
    add_ended(text, line, ended)?;
    if let Some(t) = shown.disorder {
        add_pair(text, "disorder", line, t.line)?;
    }
    add_begin(text, shown.begin, name)
}
