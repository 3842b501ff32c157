//! Lines of logs, and the lines of the schedule that they come to.

use sd_io::outside::{MemShelf, MemSink};
use sd_record::logs::read_entry;
use sd_record::{ApplyFault, IoError, Recorder, Status, record_log};
use sd_test_examples::{TRIANGLE, TRIANGLE_PLAN};
use sd_test_fleet_kit::examples::plans_of;
use sd_topotext::read_topology;
use std::process::Abort;
use std::test::Fail;

/// A recorder over the triangle with one plan. Its links rb, rx and bx (0 to 2) join the devices
/// r, b and x (0 to 2).
fn new_recorder(rt: &(impl AllocGlobal + Abort)) -> Result<Recorder, Fail> {
    let topo = read_topology(rt.alloc(), TRIANGLE.as_bytes())?;
    let plans = plans_of(rt.alloc(), &topo, &[TRIANGLE_PLAN])?;
    Ok(Recorder::new(rt.alloc(), &topo, plans.as_slice())?)
}

/// A line of a log is taken, and comes to these lines of the schedule, or is refused.
fn take(
    rt: &(impl AllocGlobal + Abort),
    recorder: &mut Recorder,
    line: &str,
    wanted: Result<&str, ApplyFault>,
) -> Result<(), Fail> {
    let entry = read_entry(line.as_bytes())?;
    let refused = recorder.take(rt.alloc(), &entry)?;
    match wanted {
        Ok(lines) => {
            assert_eq!(rt; refused, None, "{line}");
            assert_eq!(rt; recorder.lines(), lines.as_bytes(), "{line}");
        }
        Err(fault) => assert_eq!(rt; refused, Some(fault), "{line}"),
    }
    Ok(())
}

/// The lines are taken in their order.
fn take_all(
    rt: &(impl AllocGlobal + Abort),
    recorder: &mut Recorder,
    lines: &[(&str, Result<&str, ApplyFault>)],
) -> Result<(), Fail> {
    for (line, wanted) in lines {
        take(rt, recorder, line, *wanted)?;
    }
    Ok(())
}

/// Up to the second tick of the root, which sends messages 1 and 2.
const SENT: [(&str, Result<&str, ApplyFault>); 7] = [
    (
        "start 1000000000000 0 0 1000000000000 500",
        Ok("start 1000000000000 0 0 1000000000000 500\n"),
    ),
    (
        "start 1000000000000 1 0 1000000000000 800000",
        Ok("start 1000000000000 1 0 1000000000000 800000\n"),
    ),
    (
        "start 1000000000000 2 0 1000000000000 800000",
        Ok("start 1000000000000 2 0 1000000000000 800000\n"),
    ),
    (
        "tick 1000090000000 0 90000000",
        Ok("tick 1000090000000 0 90000000\n"),
    ),
    (
        "tick 1000090000000 1 89996000",
        Ok("tick 1000090000000 1 89996000\n"),
    ),
    (
        "tick 1000090000000 2 90005000",
        Ok("tick 1000090000000 2 90005000\n"),
    ),
    (
        "tick 1000110000000 0 110000000",
        Ok("tick 1000110000000 0 110000000\n"),
    ),
];

/// The logs of docs/RECORD.md: no log has message 2, which is lost at its last moment.
const WORKED: [(&str, Result<&str, ApplyFault>); 5] = [
    (
        "recv 1000110700000 1 110696000 0 1 0 1",
        Ok("recv 1000110700000 1 110696000 1\n"),
    ),
    (
        "recv 1000111400000 2 111407000 2 1 0 1",
        Ok("recv 1000111400000 2 111407000 3\n"),
    ),
    (
        "ask 1000121000000 1 120995000",
        Ok("lose 1000112000000 2\nask 1000121000000 1 120995000\n"),
    ),
    (
        "ask 1000121000000 2 121007000",
        Ok("ask 1000121000000 2 121007000\n"),
    ),
    ("end 1000121000000", Ok("end 1000121000000\n")),
];

/// At its last moment message 2 can still be received.
const LATE: [(&str, Result<&str, ApplyFault>); 1] = [(
    "recv 1000112000000 2 112000000 1 1 0 1",
    Ok("recv 1000112000000 2 112000000 2\n"),
)];

/// A picosecond later it is lost, and nobody can receive it.
const TOO_LATE: [(&str, Result<&str, ApplyFault>); 1] = [(
    "recv 1000112000001 2 112000000 1 1 0 1",
    Err(ApplyFault::UnknownMessage),
)];

/// A log says that message 2 is lost.
const NAMED: [(&str, Result<&str, ApplyFault>); 1] = [(
    "lose 1000110500000 2 1 1 0 1",
    Ok("lose 1000110500000 2\n"),
)];

/// The lines are taken after those up to the sending.
fn take_behind(
    rt: &(impl AllocGlobal + Abort),
    recorder: &mut Recorder,
    lines: &[(&str, Result<&str, ApplyFault>)],
) -> Result<(), Fail> {
    take_all(rt, recorder, &SENT)?;
    take_all(rt, recorder, lines)
}

/// A new recorder takes these lines after those up to the sending.
fn record(
    rt: &(impl AllocGlobal + Abort),
    lines: &[(&str, Result<&str, ApplyFault>)],
) -> Result<(), Fail> {
    let mut recorder = new_recorder(rt)?;
    let taken = take_behind(rt, &mut recorder, lines);
    drop(recorder);
    taken
}

#[test]
fn the_worked_logs_come_to_their_schedule(rt: HostRuntime) -> Result<(), Fail> {
    record(&rt, &WORKED)
}

#[test]
fn a_message_is_received_up_to_its_last_moment(rt: HostRuntime) -> Result<(), Fail> {
    record(&rt, &LATE)
}

#[test]
fn a_message_is_lost_behind_its_last_moment(rt: HostRuntime) -> Result<(), Fail> {
    record(&rt, &TOO_LATE)
}

#[test]
fn a_log_says_that_a_message_is_lost(rt: HostRuntime) -> Result<(), Fail> {
    record(&rt, &NAMED)
}

/// A shelf that holds a log and lends it in pieces of seven bytes.
fn shelf_with(rt: &(impl AllocGlobal + Abort), log: &str) -> Result<MemShelf, Fail> {
    let mut files = Vec::new(rt.alloc());
    files.push((
        String::from_str(rt.alloc(), "log")?,
        Vec::from_slice(rt.alloc(), log.as_bytes())?,
    ))?;
    Ok(MemShelf::new(files, 7, Vec::new(rt.alloc())))
}

/// The log of a shelf is recorded over the triangle.
fn record_whole(
    rt: &(impl AllocGlobal + Abort),
    shelf: &mut MemShelf,
    out: &mut MemSink,
) -> Result<Result<Status, IoError>, Fail> {
    let topo = read_topology(rt.alloc(), TRIANGLE.as_bytes())?;
    let plans = plans_of(rt.alloc(), &topo, &[TRIANGLE_PLAN])?;
    Ok(record_log(rt.alloc(), shelf, &topo, plans.as_slice(), "log", out))
}

/// A log comes to this text and this status.
fn comes_to(
    rt: &(impl AllocGlobal + Abort),
    log: &str,
    text: &str,
    status: Status,
) -> Result<(), Fail> {
    let mut shelf = shelf_with(rt, log)?;
    let mut out = MemSink::new(rt.alloc(), 10_000, Vec::new(rt.alloc()))?;
    let answer = record_whole(rt, &mut shelf, &mut out)?;
    assert_eq!(rt; out.bytes(), text.as_bytes());
    assert_eq!(rt; answer, Ok(status));
    Ok(())
}

#[test]
fn a_log_is_recorded_line_by_line(rt: HostRuntime) -> Result<(), Fail> {
    comes_to(
        &rt,
        "start 5 0 0 5 0\ntick 6 0 1\nend 7\n",
        "start 5 0 0 5 0\ntick 6 0 1\nend 7\n",
        Status::Done,
    )
}

#[test]
fn a_line_that_is_refused_ends_a_log(rt: HostRuntime) -> Result<(), Fail> {
    comes_to(
        &rt,
        "start 5 0 0 5 0\nrecv 6 0 1 0 1 0 1\nend 7\n",
        "start 5 0 0 5 0\ninput log 2 UnknownMessage\n",
        Status::InputRefused,
    )
}
