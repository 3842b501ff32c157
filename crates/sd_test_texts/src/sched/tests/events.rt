//! A line for each word and kind.
use crate::same::assert_same;
use sd_sched::{Event, first_field, line_text, read_line};
use std::process::Abort;
use std::test::Fail;

/// A line for each word and kind, with its event.
static LINES: [(&str, Event); 16] = [
    (
        "start 1000000 0 0 1000000 500",
        Event::Start {
            reference: 1_000_000,
            device: 0,
            counter: 0,
            clock: 1_000_000,
            eps: 500,
        },
    ),
    (
        "tick 5000000 4294967295 4000000",
        Event::Tick {
            reference: 5_000_000,
            device: 4_294_967_295,
            counter: 4_000_000,
        },
    ),
    (
        "recv 110700000 1 110700001 1",
        Event::Recv {
            reference: 110_700_000,
            device: 1,
            counter: 110_700_001,
            message: 1,
        },
    ),
    (
        "lose 110700000 18",
        Event::Lose {
            reference: 110_700_000,
            message: 18,
        },
    ),
    (
        "fail 112000000 device 2",
        Event::FailDevice {
            reference: 112_000_000,
            device: 2,
        },
    ),
    (
        "fail 112000000 link 0",
        Event::FailLink {
            reference: 112_000_000,
            link: 0,
        },
    ),
    (
        "fix 9 8 7 6 5",
        Event::Fix {
            reference: 9,
            device: 8,
            counter: 7,
            clock: 6,
            eps: 5,
        },
    ),
    (
        "ask 6000000 0 1152921504606846976",
        Event::Ask {
            reference: 6_000_000,
            device: 0,
            counter: 1 << 60,
        },
    ),
    ("stage 0", Event::Stage { reference: 0 }),
    (
        "give 10 3",
        Event::Give {
            reference: 10,
            device: 3,
        },
    ),
    (
        "commit 12 3 11",
        Event::Commit {
            reference: 12,
            device: 3,
            counter: 11,
        },
    ),
    (
        "seal 13 3",
        Event::Seal {
            reference: 13,
            device: 3,
        },
    ),
    (
        "join 14 4 2 15 1",
        Event::Join {
            reference: 14,
            device: 4,
            counter: 2,
            clock: 15,
            eps: 1,
        },
    ),
    (
        "mend 112000000 device 2",
        Event::MendDevice {
            reference: 112_000_000,
            device: 2,
        },
    ),
    (
        "mend 112000000 link 4294967295",
        Event::MendLink {
            reference: 112_000_000,
            link: 4_294_967_295,
        },
    ),
    ("end 1152921504606846976", Event::End { reference: 1 << 60 }),
];

#[test]
fn reads_each_word(rt: HostRuntime) {
    for (line, event) in &LINES {
        assert_eq!(rt; read_line(line.as_bytes()), Ok(*event), "{line}");
    }
}

/// A text is this line and a newline.
fn assert_line(rt: &impl Abort, text: &[u8], line: &str) {
    match text {
        [front @ .., b'\n'] => assert_eq!(rt; front, line.as_bytes(), "{line}"),
        _ => panic!(rt; "no newline after {line}"),
    }
}

#[test]
fn prints_each_event(rt: HostRuntime) -> Result<(), Fail> {
    for (line, event) in &LINES {
        let text = line_text(rt.alloc(), event)?;
        assert_line(&rt, text.as_slice(), line);
    }
    Ok(())
}

/// An event has this reference, device and counter.
fn assert_fields(rt: &impl Abort, event: &Event, fields: (u64, Option<u32>, Option<u64>)) {
    assert_same(
        rt,
        (event.reference(), event.device(), event.counter()),
        fields,
    );
}

#[test]
fn tells_the_fields(rt: HostRuntime) {
    let received = Event::Recv {
        reference: 4,
        device: 3,
        counter: 2,
        message: 1,
    };
    assert_fields(&rt, &received, (4, Some(3), Some(2)));
    let lost = Event::Lose {
        reference: 4,
        message: 1,
    };
    assert_fields(&rt, &lost, (4, None, None));
}

/// Lines with their first fields.
static FIRST: [(&[u8], &[u8]); 3] = [(b"ask 1 2 3", b"ask"), (b"ask", b"ask"), (b" ask", b"")];

#[test]
fn takes_the_first_field(rt: HostRuntime) {
    for (line, first) in &FIRST {
        assert_same(&rt, first_field(line), *first);
    }
}
