//! Runs with what they write, and where the outside fails in them.

use crate::kit::Case;
use crate::texts::*;
use sd_test_examples::{
    FABRIC, FABRIC_GREEDY, FABRIC_PLAN, FABRIC_RENEWED, TRIANGLE, TRIANGLE_PLAN,
};
use sd_top::Status;

const SOLO: Case<'static> = Case {
    ctl: false,
    words: &["solo", "file"],
    texts: &[("file", GROWTH)],
    output: "report 2 0 6000000 2500\ndone 3 1\n",
    status: Status::Done,
};

const SOLO_CUT: Case<'static> = Case {
    texts: &[("file", GROWTH_CUT)],
    ..SOLO
};

/// What is absent of the fabric.
const WITHOUT_L3: &str = r#"{"absent_devices":["l3"],"absent_links":[]}"#;

const CHECK: Case<'static> = Case {
    ctl: false,
    words: &["check", "topology", "plan"],
    texts: &[("topology", FABRIC), ("plan", FABRIC_PLAN)],
    output: "accepted 5 6 11\n",
    status: Status::Done,
};

const PLAN: Case<'static> = Case {
    ctl: false,
    words: &["plan", "topology"],
    texts: &[("topology", FABRIC)],
    output: FABRIC_GREEDY,
    status: Status::Done,
};

const RENEW: Case<'static> = Case {
    ctl: false,
    words: &["renew", "topology", "plan", "absent"],
    texts: &[
        ("topology", FABRIC),
        ("plan", FABRIC_PLAN),
        ("absent", WITHOUT_L3),
    ],
    output: FABRIC_RENEWED,
    status: Status::Done,
};

const MIGRATE: Case<'static> = Case {
    ctl: false,
    words: &["migrate", "topology"],
    texts: &[("topology", TRIANGLE)],
    output: MIGRATED,
    status: Status::Done,
};

const MIGRATE_AGAIN: Case<'static> = Case {
    ctl: false,
    words: &["migrate", "topology"],
    texts: &[("topology", MIGRATED)],
    output: MIGRATED,
    status: Status::Done,
};

const REPLAY: Case<'static> = Case {
    ctl: false,
    words: &["replay", "topology", "plan", "schedule"],
    texts: &[
        ("topology", TRIANGLE),
        ("plan", TRIANGLE_PLAN),
        ("schedule", BASE),
    ],
    output: "report 12 x 120700000 326500\ndone 13 1\n",
    status: Status::Done,
};

const RENEWED: Case<'static> = Case {
    ctl: false,
    words: &["replay", "topology", "plan", "second", "schedule"],
    texts: &[
        ("topology", TRIANGLE),
        ("plan", TRIANGLE_PLAN),
        ("second", SECOND_PLAN),
        ("schedule", RENEWAL),
    ],
    output: "report 22 b 215700000 345500\nreport 23 x 215400000 345440\ndone 30 2\n",
    status: Status::Done,
};

const ORDER: Case<'static> = Case {
    ctl: false,
    words: &["order", "topology", "plan", "schedule"],
    texts: &[
        ("topology", TRIANGLE),
        ("plan", TRIANGLE_PLAN),
        ("schedule", ORDERS),
    ],
    output: ORDERED,
    status: Status::Done,
};

const TWOWAY: Case<'static> = Case {
    ctl: false,
    words: &["twoway", "topology", "exchanges"],
    texts: &[
        ("topology", TRIANGLE),
        (
            "exchanges",
            "exchange 0 0 0 0 5000000 6000000 2400000\nexchange 1 0 0 7 5 5 7\nend\n",
        ),
    ],
    output: "link rb 698660 701340 1 inside\nlink rx 0 500 1 outside\ndone 3 2\n",
    status: Status::Done,
};

const DRILL: Case<'static> = Case {
    ctl: false,
    words: &["drill", "topology", "plan", "800000", "3000000000"],
    texts: &[("topology", TRIANGLE), ("plan", TRIANGLE_PLAN)],
    output: DRILLED,
    status: Status::Done,
};

const CASE: Case<'static> = Case {
    ctl: false,
    words: &["case", "1", "2", "3"],
    texts: &[],
    output: "case 1207 20 3202976 0 0\n",
    status: Status::Done,
};

const SEARCH: Case<'static> = Case {
    ctl: true,
    words: &["search", "topology", "1000000", "3000000000", "1", "0"],
    texts: &[("topology", FABRIC)],
    output: FABRIC_GREEDY,
    status: Status::Done,
};

const BOUNDS: Case<'static> = Case {
    ctl: true,
    words: &["bounds", "topology", "plan", "800000", "3000000000"],
    texts: &[("topology", TRIANGLE), ("plan", TRIANGLE_PLAN)],
    output: BOUNDED,
    status: Status::Done,
};

const RESUME: Case<'static> = Case {
    ctl: true,
    words: &[
        "resume", "topology", "plan", "schedule", "/", "plan", "opening",
    ],
    texts: &[
        ("topology", TRIANGLE),
        ("plan", TRIANGLE_PLAN),
        ("schedule", SCHEDULE),
        ("opening", OPENING),
    ],
    output: "agree 11 5\n",
    status: Status::Done,
};

const RECORD: Case<'static> = Case {
    ctl: true,
    words: &["record", "topology", "plan", "log"],
    texts: &[
        ("topology", TRIANGLE),
        ("plan", TRIANGLE_PLAN),
        ("log", LOG),
    ],
    output: RECORDED,
    status: Status::InputRefused,
};

const MERGE: Case<'static> = Case {
    ctl: true,
    words: &["merge", "2", "feed"],
    texts: &[("feed", FEED)],
    output: MERGED,
    status: Status::Done,
};

/// Runs whatever the pieces of their texts.
pub(crate) static PIECES: [Case<'static>; 17] = [
    SOLO,
    SOLO_CUT,
    CHECK,
    PLAN,
    RENEW,
    MIGRATE,
    MIGRATE_AGAIN,
    REPLAY,
    RENEWED,
    ORDER,
    TWOWAY,
    DRILL,
    SEARCH,
    BOUNDS,
    RESUME,
    RECORD,
    MERGE,
];

/// A run over texts in pieces, and how many calls of the shelf it makes.
#[derive(Clone, Copy)]
pub(crate) struct Calls<'a> {
    pub(crate) case: Case<'a>,
    pub(crate) piece: usize,
    pub(crate) calls: u64,
    /// Where one of this many first calls fails, nothing is written.
    pub(crate) silent: u64,
    /// What is written where a later one fails.
    pub(crate) late: &'a str,
}

/// The writes of `order` up to the last ask.
const ORDERED_BEFORE_THE_END: &str = "\
report 4 r 1000000 1700
begin 4 r 1001700
report 5 r 1003000 1701
begin 5 r 1004701
report 6 r 1004000 1701
ended 6 4
begin 6 r 1005701
";

/// The writes of `merge` up to the last line.
const MERGED_BEFORE_THE_END: &str = "\
ask 4 1 4
ask 5 0 5
ask 7 0 7
ask 7 1 7
end 8
";

/// Commands that write once.
pub(crate) static CALLS_AT_ONCE: [Calls<'static>; 4] = [
    Calls {
        case: CHECK,
        piece: 4096,
        calls: 6,
        silent: 6,
        late: "",
    },
    Calls {
        case: PLAN,
        piece: 4096,
        calls: 3,
        silent: 3,
        late: "",
    },
    Calls {
        case: RENEW,
        piece: 4096,
        calls: 9,
        silent: 9,
        late: "",
    },
    Calls {
        case: MIGRATE_AGAIN,
        piece: 400,
        calls: 4,
        silent: 4,
        late: "",
    },
];

/// Commands over schedules.
pub(crate) static CALLS_BY_LINE: [Calls<'static>; 4] = [
    Calls {
        case: SOLO,
        piece: 12,
        calls: 8,
        silent: 6,
        late: "report 2 0 6000000 2500\n",
    },
    Calls {
        case: SOLO,
        piece: 30,
        calls: 5,
        silent: 3,
        late: "report 2 0 6000000 2500\n",
    },
    Calls {
        case: REPLAY,
        piece: 64,
        calls: 23,
        silent: 22,
        late: "report 12 x 120700000 326500\n",
    },
    Calls {
        case: ORDER,
        piece: 8192,
        calls: 9,
        silent: 8,
        late: ORDERED_BEFORE_THE_END,
    },
];

/// Commands that write bounds or plans.
pub(crate) static CALLS_OF_BOUNDS: [Calls<'static>; 4] = [
    Calls {
        case: TWOWAY,
        piece: 8192,
        calls: 6,
        silent: 6,
        late: "",
    },
    Calls {
        case: DRILL,
        piece: 8192,
        calls: 6,
        silent: 6,
        late: "",
    },
    Calls {
        case: SEARCH,
        piece: 8192,
        calls: 3,
        silent: 3,
        late: "",
    },
    Calls {
        case: BOUNDS,
        piece: 8192,
        calls: 6,
        silent: 6,
        late: "",
    },
];

/// Commands over recordings.
pub(crate) static CALLS_OF_RECORDINGS: [Calls<'static>; 3] = [
    Calls {
        case: RESUME,
        piece: 8192,
        calls: 12,
        silent: 12,
        late: "",
    },
    Calls {
        case: RECORD,
        piece: 8192,
        calls: 9,
        silent: 8,
        late: LOG,
    },
    Calls {
        case: MERGE,
        piece: 8192,
        calls: 3,
        silent: 2,
        late: MERGED_BEFORE_THE_END,
    },
];

/// A run, and writes of it that fail: which, how many bytes it keeps, of how many bytes the front is
/// that is written, and the status. A write after the last does not fail.
#[derive(Clone, Copy)]
pub(crate) struct Writes<'a> {
    pub(crate) case: Case<'a>,
    pub(crate) fails: &'a [(u64, usize, usize, Status)],
}

/// Commands that write once.
pub(crate) static WRITES_AT_ONCE: [Writes<'static>; 4] = [
    Writes {
        case: CHECK,
        fails: &[
            (1, 0, 0, Status::SinkFault),
            (1, 7, 7, Status::SinkFault),
            (1, 16, 16, Status::SinkFault),
            (2, 0, 16, Status::Done),
        ],
    },
    Writes {
        case: PLAN,
        fails: &[
            (1, 0, 0, Status::SinkFault),
            (1, 7, 7, Status::SinkFault),
            (1, 16, 16, Status::SinkFault),
            (2, 0, 457, Status::Done),
        ],
    },
    Writes {
        case: RENEW,
        fails: &[
            (1, 0, 0, Status::SinkFault),
            (1, 7, 7, Status::SinkFault),
            (1, 16, 16, Status::SinkFault),
            (2, 0, 386, Status::Done),
        ],
    },
    Writes {
        case: MIGRATE_AGAIN,
        fails: &[(1, 0, 0, Status::SinkFault), (1, 9, 9, Status::SinkFault)],
    },
];

/// Commands over schedules.
pub(crate) static WRITES_BY_LINE: [Writes<'static>; 3] = [
    Writes {
        case: SOLO,
        fails: &[
            (1, 3, 3, Status::SinkFault),
            (1, 9, 9, Status::SinkFault),
            (2, 3, 27, Status::SinkFault),
        ],
    },
    Writes {
        case: RENEWED,
        fails: &[
            (1, 3, 3, Status::SinkFault),
            (2, 3, 32, Status::SinkFault),
            (3, 3, 61, Status::SinkFault),
        ],
    },
    Writes {
        case: ORDER,
        fails: &[
            (1, 23, 23, Status::SinkFault),
            (3, 27, 111, Status::SinkFault),
            (4, 3, 139, Status::SinkFault),
            (5, 0, 145, Status::SinkFault),
        ],
    },
];

/// Commands that write bounds or plans.
pub(crate) static WRITES_OF_BOUNDS: [Writes<'static>; 5] = [
    Writes {
        case: TWOWAY,
        fails: &[
            (1, 0, 0, Status::SinkFault),
            (1, 7, 7, Status::SinkFault),
            (2, 4, 35, Status::SinkFault),
            (3, 6, 61, Status::SinkFault),
        ],
    },
    Writes {
        case: DRILL,
        fails: &[
            (1, 0, 0, Status::SinkFault),
            (1, 8, 8, Status::SinkFault),
            (2, 0, 69, Status::SinkFault),
            (7, 7, 430, Status::SinkFault),
        ],
    },
    Writes {
        case: CASE,
        fails: &[(1, 9, 9, Status::SinkFault), (2, 0, 25, Status::Done)],
    },
    Writes {
        case: SEARCH,
        fails: &[(1, 3, 3, Status::SinkFault)],
    },
    Writes {
        case: BOUNDS,
        fails: &[(1, 7, 7, Status::SinkFault), (2, 7, 118, Status::SinkFault)],
    },
];

/// Commands over recordings.
pub(crate) static WRITES_OF_RECORDINGS: [Writes<'static>; 3] = [
    Writes {
        case: RESUME,
        fails: &[(1, 6, 6, Status::SinkFault)],
    },
    Writes {
        case: RECORD,
        fails: &[(2, 5, 23, Status::SinkFault)],
    },
    Writes {
        case: MERGE,
        fails: &[
            (1, 0, 0, Status::SinkFault),
            (2, 0, 10, Status::SinkFault),
            (3, 0, 30, Status::SinkFault),
            (4, 0, 40, Status::SinkFault),
            (5, 0, 46, Status::SinkFault),
        ],
    },
];
