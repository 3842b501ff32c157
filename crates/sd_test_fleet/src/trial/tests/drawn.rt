//! Lines drawn by lot, most of which can happen after a history.

use sd_plan::topo::Thing;
use sd_test_fleet_kit::plain::{Numbers, Plain, Stage, Subject, Turn};
use std::alloc::{AllocError, Global};

/// What a line names after its word and its reference.
#[derive(Clone, Copy)]
pub(super) enum Named {
    /// A device whose clock is set.
    Clock(u32),
    /// A device that reads its counter.
    Reading(u32),
    Receipt(u32, u64),
    Message(u64),
    Device(u32),
    Thing(Thing),
    Nothing,
}

/// A line before it is written.
#[derive(Clone, Copy)]
pub(super) struct Draft {
    pub(super) word: &'static str,
    named: Named,
}

fn drafted(word: &'static str, named: Named) -> Draft {
    Draft { word, named }
}

/// A moment a little later than the latest event, and sometimes before it.
fn moment(numbers: &mut Numbers, plain: &Plain<'_>) -> u64 {
    let latest = plain.latest_reference();
    if numbers.once_in(40) {
        return latest.saturating_sub(numbers.below(5));
    }
    let most = match numbers.below(10) {
        0 => 300,
        1 => 90,
        _ => 12,
    };
    latest.saturating_add(numbers.below(most))
}

/// What the counter of a device shows, and sometimes less.
fn counter_of(numbers: &mut Numbers, plain: &Plain<'_>, reference: u64, d: u32) -> u64 {
    if numbers.once_in(40) {
        return plain
            .latest_counter(d, Subject::Reading)
            .saturating_sub(numbers.below(3));
    }
    reference.saturating_add(u64::from(d).saturating_mul(7))
}

/// Any device, and sometimes one that there is not.
fn any_device(numbers: &mut Numbers, plain: &Plain<'_>) -> u32 {
    let more = numbers.once_in(40);
    numbers
        .small(plain.net.devices)
        .saturating_add(if more { plain.net.devices } else { 0 })
}

/// Any link, and sometimes one that there is not.
fn any_link(numbers: &mut Numbers, plain: &Plain<'_>) -> u32 {
    numbers.small(plain.net.links().saturating_add(1))
}

/// A device that is wanted, and sometimes any.
fn mostly(numbers: &mut Numbers, plain: &Plain<'_>, wanted: Option<u32>) -> u32 {
    let any = any_device(numbers, plain);
    if numbers.once_in(8) {
        any
    } else {
        wanted.unwrap_or(any)
    }
}

/// Any number of a message, up to two that were not sent yet.
fn any_message(numbers: &mut Numbers, plain: &Plain<'_>) -> u64 {
    numbers.below((plain.sent.len() as u64).saturating_add(2))
}

/// One of the messages that may still come, with its receiver.
fn coming(numbers: &mut Numbers, plain: &Plain<'_>) -> Option<(u64, u32)> {
    let mut chosen = None;
    for sent in &plain.sent {
        if !plain.is_spent(sent, 0) && (chosen.is_none() || numbers.once_in(2)) {
            chosen = Some((sent.flight.number, sent.flight.receiver));
        }
    }
    chosen
}

/// A message that may still come, mostly to its receiver. Where there is none, a device ticks.
fn receive(numbers: &mut Numbers, plain: &Plain<'_>) -> Draft {
    match coming(numbers, plain) {
        Some((number, receiver)) => {
            let device = mostly(numbers, plain, Some(receiver));
            drafted("recv", Named::Receipt(device, number))
        }
        None => tick(numbers, plain),
    }
}

/// Any message, whether or not it may still come.
fn receive_any(numbers: &mut Numbers, plain: &Plain<'_>) -> Draft {
    let device = any_device(numbers, plain);
    drafted("recv", Named::Receipt(device, any_message(numbers, plain)))
}

fn lose(numbers: &mut Numbers, plain: &Plain<'_>) -> Draft {
    let any = any_message(numbers, plain);
    let number = match coming(numbers, plain) {
        Some((number, _)) if numbers.once_in(2) => number,
        _ => any,
    };
    drafted("lose", Named::Message(number))
}

fn tick(numbers: &mut Numbers, plain: &Plain<'_>) -> Draft {
    let any = any_device(numbers, plain);
    let device = if numbers.once_in(3) {
        plain.first(Turn::Act).unwrap_or(any)
    } else {
        any
    };
    drafted("tick", Named::Reading(device))
}

fn fail(numbers: &mut Numbers, plain: &Plain<'_>) -> Draft {
    let link = Thing::Link(any_link(numbers, plain));
    let device = Thing::Device(any_device(numbers, plain));
    drafted(
        "fail",
        Named::Thing(if numbers.once_in(3) { device } else { link }),
    )
}

fn mend(numbers: &mut Numbers, plain: &Plain<'_>) -> Draft {
    let device = mostly(numbers, plain, plain.first(Turn::Mend));
    let any = any_link(numbers, plain);
    let thing = match plain.failed_link() {
        Some(link) if numbers.once_in(2) => Thing::Link(link),
        None if numbers.once_in(6) => Thing::Link(any),
        _ => Thing::Device(device),
    };
    drafted("mend", Named::Thing(thing))
}

fn give(numbers: &mut Numbers, plain: &Plain<'_>) -> Draft {
    let device = mostly(numbers, plain, plain.first(Turn::Give));
    drafted("give", Named::Device(device))
}

fn join(numbers: &mut Numbers, plain: &Plain<'_>) -> Draft {
    let device = mostly(numbers, plain, plain.first(Turn::Join));
    drafted("join", Named::Clock(device))
}

fn seal(numbers: &mut Numbers, plain: &Plain<'_>) -> Draft {
    let device = mostly(numbers, plain, plain.first(Turn::Seal));
    drafted("seal", Named::Device(device))
}

fn commit(numbers: &mut Numbers, plain: &Plain<'_>) -> Draft {
    let device = mostly(numbers, plain, plain.net.root(plain.staged_epoch()));
    drafted("commit", Named::Reading(device))
}

/// A line of a change of plans, whether or not it is its turn.
fn stray(numbers: &mut Numbers, plain: &Plain<'_>) -> Draft {
    match numbers.below(24) {
        0..=2 => drafted("stage", Named::Nothing),
        3..=6 => give(numbers, plain),
        7..=10 => commit(numbers, plain),
        11..=14 => seal(numbers, plain),
        15..=17 => join(numbers, plain),
        18..=20 => mend(numbers, plain),
        21 | 22 => drafted("start", Named::Clock(any_device(numbers, plain))),
        _ => drafted("end", Named::Nothing),
    }
}

/// The next line of a change of plans.
fn renewal(numbers: &mut Numbers, plain: &Plain<'_>) -> Draft {
    let choice = numbers.below(7);
    match (
        plain.stage(),
        plain.first(Turn::Give),
        plain.first(Turn::Seal),
    ) {
        (Stage::NoWindow, _, _) => drafted("stage", Named::Nothing),
        (Stage::Preparing, Some(_), _) if choice < 4 => give(numbers, plain),
        (Stage::Preparing, None, _) if choice < 3 => commit(numbers, plain),
        (Stage::Preparing, _, _) if choice == 4 => join(numbers, plain),
        (Stage::Preparing, _, _) if choice == 5 => {
            drafted("give", Named::Device(any_device(numbers, plain)))
        }
        (Stage::Preparing, _, _) => mend(numbers, plain),
        (Stage::Committed, _, Some(_)) => seal(numbers, plain),
        (Stage::Committed, _, None) => tick(numbers, plain),
    }
}

/// The next line.
pub(super) fn draw(numbers: &mut Numbers, plain: &Plain<'_>) -> Draft {
    if let Some(device) = plain.first(Turn::Start)
        && !numbers.once_in(4)
    {
        return drafted("start", Named::Clock(device));
    }
    match numbers.below(40) {
        0..=9 => tick(numbers, plain),
        10..=23 => receive(numbers, plain),
        24 => receive_any(numbers, plain),
        25 => lose(numbers, plain),
        26 => drafted("fix", Named::Clock(any_device(numbers, plain))),
        27 | 28 => drafted("ask", Named::Reading(any_device(numbers, plain))),
        29 => fail(numbers, plain),
        30 | 31 => stray(numbers, plain),
        _ => renewal(numbers, plain),
    }
}

/// Writes a line.
pub(super) fn line_of(
    alloc: Global,
    numbers: &mut Numbers,
    plain: &Plain<'_>,
    draft: Draft,
) -> Result<String, AllocError> {
    let word = draft.word;
    let reference = moment(numbers, plain);
    match draft.named {
        Named::Clock(d) => {
            let counter = counter_of(numbers, plain, reference, d);
            let clock = reference.saturating_add(numbers.below(20));
            let eps = numbers.below(50);
            format!(in alloc; "{word} {reference} {d} {counter} {clock} {eps}")
        }
        Named::Reading(d) => {
            let counter = counter_of(numbers, plain, reference, d);
            format!(in alloc; "{word} {reference} {d} {counter}")
        }
        Named::Receipt(d, number) => {
            let counter = counter_of(numbers, plain, reference, d);
            format!(in alloc; "{word} {reference} {d} {counter} {number}")
        }
        Named::Message(number) => format!(in alloc; "{word} {reference} {number}"),
        Named::Device(d) => format!(in alloc; "{word} {reference} {d}"),
        Named::Thing(Thing::Device(d)) => format!(in alloc; "{word} {reference} device {d}"),
        Named::Thing(Thing::Link(l)) => format!(in alloc; "{word} {reference} link {l}"),
        Named::Nothing => format!(in alloc; "{word} {reference}"),
    }
}
