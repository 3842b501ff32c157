//! Transactions worked out by hand.
use crate::same::assert_same;
use sd_device::msg::Observer;
use sd_num::NoMemory;
use sd_num::clock::Report;
use sd_replay::wait::{WaitTally, Waits};
use std::alloc::Global;
use std::process::Abort;
use std::test::Fail;

/// Tells of a report, of device 0 by the name `r` and of another by `b`, and answers its lines.
fn told(
    alloc: Global,
    waits: &mut Waits,
    (line, device): (u64, u32),
    (clock, eps): (u64, u64),
) -> Result<Vec<u8>, NoMemory> {
    waits.ready(alloc)?;
    let report = Report {
        clock: u128::from(clock),
        eps: u128::from(eps),
    };
    waits.seen(line, device, 0, report);
    waits.lines(alloc, if device == 0 { "r" } else { "b" })
}

/// A report: its line and its device, its clock and its uncertainty, and the lines that it is
/// answered.
type Row = ((u64, u32), (u64, u64), &'static str);

/// Each report is answered its lines, and at the end there were as many transactions.
fn assert_told(
    rt: &(impl AllocGlobal + Abort),
    waits: &mut Waits,
    rows: &[Row],
    (begun, ended, disorders): (u64, u64, u64),
) -> Result<(), Fail> {
    for (at, interval, lines) in rows {
        let text = told(rt.alloc(), waits, *at, *interval)?;
        assert_eq!(rt; text.as_slice(), lines.as_bytes(), "{at:?}");
    }
    let wanted = WaitTally {
        begun,
        ended,
        disorders,
    };
    assert_same(rt, waits.tally(), wanted);
    Ok(())
}

/// The same from the beginning.
fn assert_rows(
    rt: &(impl AllocGlobal + Abort),
    rows: &[Row],
    tally: (u64, u64, u64),
) -> Result<(), Fail> {
    let mut waits = Waits::new(rt.alloc());
    let asserted = assert_told(rt, &mut waits, rows, tally);
    drop(waits);
    asserted
}

#[test]
fn no_report_has_no_lines(rt: HostRuntime) -> Result<(), Fail> {
    let waits = Waits::new(rt.alloc());
    assert_same(
        &rt,
        waits.lines(rt.alloc(), "r")?.as_slice(),
        b"".as_slice(),
    );
    drop(waits);
    assert_rows(&rt, &[], (0, 0, 0))
}

#[test]
fn of_three_transactions_the_first_ends(rt: HostRuntime) -> Result<(), Fail> {
    let rows = [
        ((4, 0), (1_000_000, 1_700), "begin 4 r 1001700\n"),
        ((5, 0), (1_003_000, 1_701), "begin 5 r 1004701\n"),
        ((6, 0), (1_004_000, 1_701), "ended 6 4\nbegin 6 r 1005701\n"),
    ];
    assert_rows(&rt, &rows, (3, 1, 0))
}

#[test]
fn one_ends_only_where_the_lower_end_has_passed_its_stamp(rt: HostRuntime) -> Result<(), Fail> {
    let begin = ((4, 0), (1_000_000, 1_700), "begin 4 r 1001700\n");
    let before = ((6, 0), (1_003_401, 1_701), "begin 6 r 1005102\n");
    let behind = ((6, 0), (1_003_402, 1_701), "ended 6 4\nbegin 6 r 1005103\n");
    assert_rows(&rt, &[begin, before], (2, 0, 0))?;
    assert_rows(&rt, &[begin, behind], (2, 1, 0))
}

#[test]
fn a_lesser_stamp_behind_an_end_shows_a_disorder(rt: HostRuntime) -> Result<(), Fail> {
    let rows = [
        ((3, 0), (1_000_000, 1_700), "begin 3 r 1001700\n"),
        ((4, 0), (1_004_000, 1_701), "ended 4 3\nbegin 4 r 1005701\n"),
        ((6, 1), (0, 1_500), "disorder 6 3\nbegin 6 b 1500\n"),
    ];
    assert_rows(&rt, &rows, (3, 1, 1))
}

#[test]
fn what_ends_together_is_shown_in_the_order_of_its_begin(rt: HostRuntime) -> Result<(), Fail> {
    // The second has the lesser stamp, and the third is of another device. Of equal stamps the
    // earlier begin is named.
    let rows = [
        ((1, 0), (500, 0), "begin 1 r 500\n"),
        ((2, 0), (400, 0), "begin 2 r 400\n"),
        ((3, 1), (450, 0), "begin 3 b 450\n"),
        ((4, 0), (500, 0), "ended 4 2\nbegin 4 r 500\n"),
        ((5, 0), (501, 0), "ended 5 1\nended 5 4\nbegin 5 r 501\n"),
        ((6, 1), (500, 0), "ended 6 3\ndisorder 6 1\nbegin 6 b 500\n"),
        ((7, 1), (501, 0), "ended 7 6\nbegin 7 b 501\n"),
        ((8, 1), (0, 0), "disorder 8 1\nbegin 8 b 0\n"),
    ];
    assert_rows(&rt, &rows, (8, 5, 2))
}
