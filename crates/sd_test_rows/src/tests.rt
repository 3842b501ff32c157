//! Texts in pieces, calls of the shelf that fail, and writes that fail.

ghost use Rattle.std.specs.Prelude.{◌≤◌};

use crate::cases::{
    CALLS_AT_ONCE, CALLS_BY_LINE, CALLS_OF_BOUNDS, CALLS_OF_RECORDINGS, Calls, PIECES,
    WRITES_AT_ONCE, WRITES_BY_LINE, WRITES_OF_BOUNDS, WRITES_OF_RECORDINGS, Writes,
};
use crate::kit::{Case, Outside, assert_leaves, assert_ran};
use sd_test_examples::TRIANGLE;
use sd_top::Status;
use std::alloc::{AllocError, Global};
use std::process::Abort;
use std::test::Fail;

#[test]
fn texts_in_any_pieces(rt: HostRuntime) -> Result<(), Fail> {
    for case in &PIECES {
        for piece in [1, 7, 4096, 8192] {
            let outside = Outside {
                piece,
                calls: &[],
                writes: &[],
            };
            assert_ran(&rt, case, outside, (case.output, case.status))?;
        }
    }
    Ok(())
}

/// A text that begins so and has this byte so often after that.
fn long_text(alloc: Global, front: &str, byte: &str, count: u32) -> Result<String, AllocError> {
    let mut text = String::from_str(alloc, front)?;
    for _ in 0..count {
        text.push_str(byte)?;
    }
    Ok(text)
}

/// A topology and another text under their names.
fn texts_of<'a>(topology: &'a str, text: &'a str) -> [(&'a str, &'a str); 2] {
    [("topology", topology), ("file", text)]
}

/// A run of `solo` or `twoway` over a text that is refused, of which at least this much is left.
fn assert_refused(
    rt: &(impl Abort + AllocGlobal),
    words: &[&str],
    text: &str,
    outside: Outside<'_>,
    due: (&str, usize),
) -> Result<(), Fail>
    requires { 1 ≤ outside.piece }
{
    let texts = texts_of(TRIANGLE, text);
    let case = Case {
        ctl: false,
        words,
        texts: &texts,
        output: "",
        status: Status::InputRefused,
    };
    assert_leaves(rt, &case, outside, (due.0, Status::InputRefused), due.1)
}

#[test]
fn long_lines_in_any_pieces(rt: HostRuntime) -> Result<(), Fail> {
    for (length, output) in [
        (4096, "input schedule 1 UnknownWord\n"),
        (4097, "input schedule 1 LongLine\n"),
    ] {
        let schedule = long_text(rt.alloc(), "", "x", length)?;
        for piece in [1, 7, 4096, 8192] {
            let outside = Outside {
                piece,
                calls: &[],
                writes: &[],
            };
            assert_refused(
                &rt,
                &["solo", "file"],
                schedule.as_str(),
                outside,
                (output, 0),
            )?;
        }
    }
    Ok(())
}

/// A first line that no command knows is told at once: of 20,002 bytes most are never read, and a
/// third call of the shelf is not made.
#[test]
fn reads_no_further_than_a_refused_line_needs(rt: HostRuntime) -> Result<(), Fail> {
    let text = long_text(rt.alloc(), "x\n", "y", 20_000)?;
    let outside = Outside {
        piece: 8192,
        calls: &[3],
        writes: &[],
    };
    let due = ("input schedule 1 UnknownWord\n", 11_810);
    assert_refused(&rt, &["solo", "file"], text.as_str(), outside, due)?;
    let outside = Outside {
        piece: 8192,
        calls: &[],
        writes: &[],
    };
    let due = ("input exchanges 1 UnknownWord\n", 11_810);
    let words = ["twoway", "topology", "file"];
    assert_refused(&rt, &words, text.as_str(), outside, due)
}

/// A run makes this many calls of the shelf. Where one fails it writes nothing, or this if it is
/// past the silent ones.
fn assert_calls_fail(rt: &(impl Abort + AllocGlobal), row: &Calls<'_>) -> Result<(), Fail>
    requires { 1 ≤ row.now.piece }
{
    for call in 1..=row.calls {
        let outside = Outside {
            piece: row.piece,
            calls: &[call],
            writes: &[],
        };
        let output = if call <= row.silent { "" } else { row.late };
        assert_ran(rt, &row.case, outside, (output, Status::ShelfFault))?;
    }
    let outside = Outside {
        piece: row.piece,
        calls: &[row.calls.saturating_add(1)],
        writes: &[],
    };
    assert_ran(rt, &row.case, outside, (row.case.output, row.case.status))
}

/// So it is of each of these runs.
fn assert_each_calls_fail(rt: &(impl Abort + AllocGlobal), rows: &[Calls<'_>]) -> Result<(), Fail> {
    for row in rows {
        if row.piece >= 1 {
            assert_calls_fail(rt, row)?;
        }
    }
    Ok(())
}

#[test]
fn each_call_of_the_shelf_fails_at_once(rt: HostRuntime) -> Result<(), Fail> {
    assert_each_calls_fail(&rt, &CALLS_AT_ONCE)
}

#[test]
fn each_call_of_the_shelf_fails_by_line(rt: HostRuntime) -> Result<(), Fail> {
    assert_each_calls_fail(&rt, &CALLS_BY_LINE)
}

#[test]
fn each_call_of_the_shelf_fails_of_bounds(rt: HostRuntime) -> Result<(), Fail> {
    assert_each_calls_fail(&rt, &CALLS_OF_BOUNDS)
}

#[test]
fn each_call_of_the_shelf_fails_of_recordings(rt: HostRuntime) -> Result<(), Fail> {
    assert_each_calls_fail(&rt, &CALLS_OF_RECORDINGS)
}

/// Where a write fails, what it keeps and all before it is written.
fn assert_writes_fail(rt: &(impl Abort + AllocGlobal), row: &Writes<'_>) -> Result<(), Fail> {
    for (write, kept, length, status) in row.fails {
        let outside = Outside {
            piece: 8192,
            calls: &[],
            writes: &[(*write, *kept)],
        };
        let front = row
            .case
            .output
            .get(..*length)
            .ok_or("the output is shorter")?;
        assert_ran(rt, &row.case, outside, (front, *status))?;
    }
    Ok(())
}

/// So it is of each of these runs.
fn assert_each_writes_fail(
    rt: &(impl Abort + AllocGlobal),
    rows: &[Writes<'_>],
) -> Result<(), Fail> {
    for row in rows {
        assert_writes_fail(rt, row)?;
    }
    Ok(())
}

#[test]
fn a_front_is_written_at_once(rt: HostRuntime) -> Result<(), Fail> {
    assert_each_writes_fail(&rt, &WRITES_AT_ONCE)
}

#[test]
fn a_front_is_written_by_line(rt: HostRuntime) -> Result<(), Fail> {
    assert_each_writes_fail(&rt, &WRITES_BY_LINE)
}

#[test]
fn a_front_is_written_of_bounds(rt: HostRuntime) -> Result<(), Fail> {
    assert_each_writes_fail(&rt, &WRITES_OF_BOUNDS)
}

#[test]
fn a_front_is_written_of_recordings(rt: HostRuntime) -> Result<(), Fail> {
    assert_each_writes_fail(&rt, &WRITES_OF_RECORDINGS)
}
