//! Transactions that wait, by device and stamp, and those that ended.
ghost use Rattle.std.specs.Prelude.{◌≡◌, ℕ, ◌+◌, ◌≤◌, [], IfSome, None, OnOk, filter, find, length, not, vec_capacity, sum_by};
ghost use Rattle.std.specs.List.Sorted.{IsNonDecreasingBy};
ghost use Rattle.sd_replay.specs.wait.Waiting as words;
ghost use Rattle.sd_replay.specs.wait.Waiting.{AllBelow, HaveSameSums, ends_below, pending_count, with_pending, worst_among};

use sd_num::NoMemory;
use std::collections::BTreeSet;

/// A transaction, which a report begins. They are in order by device, then by stamp, then by place.
#[derive(Clone, Copy, Debug, PartialEq, Eq, PartialOrd, Ord)]
pub(crate) struct Transaction {
    pub(crate) device: u32,
    /// The upper end of the reported interval, in picoseconds.
    pub(crate) stamp: u128,
    /// How many began before it.
    pub(crate) place: u64,
    /// The line of its report.
    pub(crate) line: u64,
}

/// The first of all transactions of the device whose stamps are no less than this one.
fn least(device: u32, stamp: u128) -> Transaction
    ensures { result ≡ words.least device stamp }
{
    Transaction {
        device,
        stamp,
        place: 0,
        line: 0,
    }
}

/// The first that ends: it is of the device, and its stamp is less than the lower end of an interval.
fn first_below(waiting: &BTreeSet<Transaction>, device: u32, low: u128) -> Option<Transaction>
    ensures { result ≡ find (ends_below device low) waiting.now.keys }
{
    let ending = least(device, 0)..least(device, low);
    waiting.range(ending).next().copied()
}

/// Ends the transactions of the device whose stamps are less than the lower end of an interval.
pub(crate) fn end_below(
    waiting: &mut BTreeSet<Transaction>,
    ended: &mut Vec<Transaction>,
    device: u32,
    low: u128,
)
    requires none { ended.old.items ≡ [] }
    requires room { length waiting.old.keys ≤ vec_capacity ended.old }
    ensures ended { ended.new.items ≡ filter (ends_below device low) waiting.old.keys }
    ensures left { waiting.new.keys ≡ filter (λ t. not (ends_below device low t))
        waiting.old.keys }
    ensures ended_room { vec_capacity ended.old ≤ vec_capacity ended.new }
{
    while let Some(t) = first_below(waiting, device, low) {
        waiting.remove(&t);
        ended.push_reserved(t);
    }
}

/// Puts the one that began last among those that wait, if it is not among them yet.
pub(crate) fn settle(
    waiting: &mut BTreeSet<Transaction>,
    pending: &mut Option<Transaction>,
) -> Result<(), NoMemory>
    requires { IfSome pending.old (λ t. AllBelow t.place waiting.old.keys) }
    ensures none { OnOk result (pending.new ≡ None) }
    ensures same { HaveSameSums (with_pending pending.new waiting.new.keys)
        (with_pending pending.old waiting.old.keys) }
    ensures below { (place : ℕ) → AllBelow place (with_pending pending.old waiting.old.keys)
        → AllBelow place (with_pending pending.new waiting.new.keys) }
    ensures last { IfSome pending.new (λ t. AllBelow t.place waiting.new.keys) }
    ensures pending { pending_count pending.new ≤ pending_count pending.old }
    ensures len { length waiting.new.keys ≤ length waiting.old.keys + pending_count pending.old }
{
    let Some(begun) = *pending else {
        return Ok(());
    };
    let Ok(_) = waiting.insert(begun) else {
        return Err(NoMemory);
    };
    *pending = None;
    Ok(())
}

/// Sorts transactions by the order in which they began.
pub(crate) fn sort_by_place(ended: &mut Vec<Transaction>)
    ensures same { (f : Transaction → ℕ) → sum_by f ended.new.items ≡ sum_by f ended.old.items }
    ensures rises { IsNonDecreasingBy (λ (t : Transaction). t.place) ended.new.items }
    ensures capacity { vec_capacity ended.new ≡ vec_capacity ended.old }
{
    ended.sort_unstable_by_key(|t| t.place);
}

/// The one with the greater stamp, and of equal ones the one that began first.
fn worse(worst: Option<Transaction>, t: Transaction) -> Transaction
    ensures { result ≡ words.worse worst t }
{
    match worst {
        Some(w) if w.stamp > t.stamp || (w.stamp == t.stamp && w.place < t.place) => w,
        _ => t,
    }
}

/// Of one and more the first with the greatest stamp.
pub(crate) fn worst_of(first: Option<Transaction>, ended: &[Transaction]) -> Option<Transaction>
    ensures { result ≡ worst_among first ended.now }
{
    let mut worst = first;
    for t in ended {
        worst = Some(worse(worst, *t));
    }
    worst
}

/// The transaction of which one that begins with the stamp shows a disorder, where of all that
/// ended this is the first with the greatest stamp.
pub(crate) fn disordered_by(worst: Option<Transaction>, stamp: u128) -> Option<Transaction>
    ensures { result ≡ words.disordered_by worst stamp }
{
    match worst {
        Some(w) if stamp <= w.stamp => Some(w),
        _ => None,
    }
}
