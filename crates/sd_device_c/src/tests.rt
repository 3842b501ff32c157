//! A backup root from its start to its takeover, beside values worked out by hand, and faults.
use super::crc::crc;
use super::faults::{DONE, Fault};
use super::keeping::{sundial_keep, sundial_kept, sundial_restore};
use super::makings::{sundial_made, sundial_start, sundial_start_wide};
use super::plain::{
    PlainDevice, PlainDuty, PlainEdge, PlainEffect, PlainEstimate, PlainMessage, PlainParent,
    PlainPort, PlainRates, PlainReport, PlainStamp, PlainWide,
};
use super::ports::{sundial_port_close, sundial_port_open, sundial_port_takes};
use super::queries::{sundial_acts, sundial_epoch, sundial_parent, sundial_report};
use super::rebases::{sundial_rebase, sundial_rebase_with_ports};
use super::steps::{sundial_receive, sundial_tick};

const ZERO: PlainWide = PlainWide { low: 0, high: 0 };

const RATES: PlainRates = PlainRates {
    grain: 1_000,
    ppm: 200,
};

/// A backup root of the first plan, over link 0 below device 0, or over link 2 below device 2.
const STANDBY: PlainDuty = PlainDuty {
    primary: PlainEdge {
        mid: 7,
        half: 3,
        parent: 0,
        link: 0,
    },
    backup: PlainEdge {
        mid: 7,
        half: 3,
        parent: 2,
        link: 2,
    },
    period: 100,
    wait_first: 300,
    wait_second: 200,
    wait: 900,
    rates: RATES,
    epoch: 1,
    role: 1,
    has_primary: 1,
    has_backup: 1,
};

/// What was never started: it has a mode without a duty.
const UNMADE: PlainDevice = PlainDevice {
    duty: STANDBY,
    given: STANDBY,
    estimate: PlainEstimate {
        clock: ZERO,
        base: ZERO,
        at: 0,
    },
    stamp: PlainStamp { round: 0, term: 0 },
    rates: RATES,
    last: 0,
    sent: 0,
    has_duty: 0,
    has_given: 0,
    mode: 0,
    sealed: 0,
};

const NOTHING: PlainMessage = PlainMessage {
    clock: ZERO,
    eps: ZERO,
    stamp: PlainStamp { round: 0, term: 0 },
    epoch: 0,
};

const QUIET: PlainEffect = PlainEffect {
    message: NOTHING,
    sends: 0,
};

fn wide(low: u64) -> PlainWide {
    PlainWide { low, high: 0 }
}

fn message(term: u32, round: u64, clock: u64, eps: u64) -> PlainMessage {
    PlainMessage {
        clock: wide(clock),
        eps: wide(eps),
        stamp: PlainStamp { round, term },
        epoch: 1,
    }
}

fn sends(message: PlainMessage) -> PlainEffect {
    PlainEffect { message, sends: 1 }
}

#[test]
fn takes_over_after_two_silences(rt: HostRuntime) {
    let mut device = UNMADE;
    let mut effect = QUIET;
    assert_eq!(rt; sundial_start(&mut device, &STANDBY, 0, 0, 500), DONE);
    let heard = message(0, 1, 110, 50);
    assert_eq!(rt;
        sundial_receive(&mut device, 0, &heard, 120, &mut effect),
        DONE
    );
    assert_eq!(rt; effect, sends(message(0, 1, 117, 53)));
    assert_eq!(rt; sundial_tick(&mut device, 420, &mut effect), DONE);
    assert_eq!(rt; effect, QUIET);
    let mut parent = PlainParent {
        parent: 0,
        has_parent: 0,
    };
    assert_eq!(rt; sundial_parent(&device, &mut parent), DONE);
    assert_eq!(rt; (parent.parent, parent.has_parent), (2, 1));
    let mut report = PlainReport {
        clock: ZERO,
        eps: ZERO,
    };
    assert_eq!(rt; sundial_report(&device, 500, &mut report), DONE);
    assert_eq!(rt; (report.clock, report.eps), (wide(497), wide(1_054)));
    assert_eq!(rt; sundial_tick(&mut device, 620, &mut effect), DONE);
    assert_eq!(rt; effect, sends(message(1, 1, 617, 1_054)));
    let mut acts = 0;
    assert_eq!(rt; sundial_acts(&device, &mut acts), DONE);
    assert_eq!(rt; acts, 1);
    let mut epoch = 0;
    assert_eq!(rt; sundial_epoch(&device, &mut epoch), DONE);
    assert_eq!(rt; epoch, 1);
}

#[test]
fn names_what_is_wrong(rt: HostRuntime) {
    let mut device = UNMADE;
    let mut effect = QUIET;
    assert_eq!(rt; sundial_made(&device), Fault::NoDevice.code());
    assert_eq!(rt;
        sundial_tick(&mut device, 1, &mut effect),
        Fault::NoDevice.code()
    );
    assert_eq!(rt; sundial_start(&mut device, &STANDBY, 100, 0, 500), DONE);
    assert_eq!(rt; sundial_made(&device), DONE);
    assert_eq!(rt;
        sundial_tick(&mut device, 99, &mut effect),
        Fault::CounterFell.code()
    );
    let tampered = PlainDevice { mode: 4, ..device };
    assert_eq!(rt; sundial_made(&tampered), Fault::NoDevice.code());
}

/// The root of the first plan.
const ROOT: PlainDuty = PlainDuty {
    role: 0,
    has_primary: 0,
    has_backup: 0,
    ..STANDBY
};

/// A counter shortly before its end.
const LATE: u64 = u64::MAX - 1_000;

#[test]
fn goes_on_for_years(rt: HostRuntime) {
    let mut root = UNMADE;
    let mut effect = QUIET;
    let clock = PlainWide { low: 5, high: 1 };
    assert_eq!(rt;
        sundial_start_wide(&mut root, &ROOT, LATE, &clock, &wide(500)),
        DONE
    );
    let stamp = PlainStamp {
        round: 1 << 31,
        term: 0,
    };
    let mut root = PlainDevice { stamp, ..root };
    assert_eq!(rt; sundial_tick(&mut root, LATE + 100, &mut effect), DONE);
    let sent = PlainMessage {
        clock: PlainWide { low: 105, high: 1 },
        ..message(0, (1 << 31) + 1, 0, 1_501)
    };
    assert_eq!(rt; effect, sends(sent));
    let mut lowered = 0;
    assert_eq!(rt; sundial_rebase(&mut root, LATE + 150, &mut lowered), DONE);
    assert_eq!(rt; (lowered, root.sent, root.last), (LATE, 100, 150));
    let mut report = PlainReport {
        clock: ZERO,
        eps: ZERO,
    };
    assert_eq!(rt; sundial_report(&root, 190, &mut report), DONE);
    assert_eq!(rt;
        (report.clock, report.eps),
        (PlainWide { low: 195, high: 1 }, wide(1_501))
    );
    assert_eq!(rt; sundial_tick(&mut root, 199, &mut effect), DONE);
    assert_eq!(rt; effect, QUIET);
    assert_eq!(rt; sundial_tick(&mut root, 200, &mut effect), DONE);
    assert_eq!(rt; effect.message.stamp.round, (1 << 31) + 2);
}

/// 1,022 ps after its opening more than 20 ps have surely passed: a counter that drifts by 200 ppm
/// shows 1 of them too many, and its grain is 1,000 ps.
#[test]
fn takes_what_is_younger_than_the_port(rt: HostRuntime) {
    let mut device = UNMADE;
    let mut port = PlainPort {
        clear: ZERO,
        is_open: 0,
    };
    let mut lowered = 0;
    assert_eq!(rt; sundial_port_takes(&port, 9_000), 0);
    assert_eq!(rt; sundial_start(&mut device, &STANDBY, 5_000, 0, 500), DONE);
    assert_eq!(rt;
        sundial_port_open(&mut port, &STANDBY.primary, &RATES, 5_000),
        DONE
    );
    assert_eq!(rt; sundial_port_takes(&port, 6_021), 0);
    assert_eq!(rt; sundial_port_takes(&port, 6_022), 1);
    let mut ports = [port];
    assert_eq!(rt;
        sundial_rebase_with_ports(&mut device, &mut ports, 5_500, &mut lowered),
        DONE
    );
    assert_eq!(rt; lowered, 5_000);
    assert_eq!(rt; sundial_port_takes(&ports[0], 1_021), 0);
    assert_eq!(rt; sundial_port_takes(&ports[0], 1_022), 1);
    sundial_port_close(&mut port);
    assert_eq!(rt; sundial_port_takes(&port, 9_000), 0);
}

/// What is kept of a backup root and its port over link 0, whose link was down since.
#[test]
fn keeps_and_restores(rt: HostRuntime) {
    let mut device = UNMADE;
    assert_eq!(rt; sundial_start(&mut device, &STANDBY, 0, 0, 500), DONE);
    let port = PlainPort {
        clear: PlainWide { low: 7, high: 1 },
        is_open: 0,
    };
    let mut bytes = [0; 335];
    assert_eq!(rt;
        sundial_keep(&device, &[port], LATE, 9, &mut bytes[..334]),
        Fault::WrongSize.code()
    );
    assert_eq!(rt; sundial_keep(&device, &[port], LATE, 9, &mut bytes), DONE);
    let mut kept = UNMADE;
    let mut ports = [PlainPort {
        clear: ZERO,
        is_open: 1,
    }];
    let (mut lowered, mut ticked) = (0, 0);
    assert_eq!(rt;
        sundial_restore(
            &bytes,
            2_000,
            1_009,
            &mut kept,
            &mut ports,
            &mut lowered,
            &mut ticked
        ),
        Fault::TooLate.code()
    );
    assert_eq!(rt; (kept, lowered, ticked), (UNMADE, 0, 0));
    assert_eq!(rt;
        sundial_kept(&bytes, &mut kept, &mut ports, &mut lowered, &mut ticked),
        DONE
    );
    assert_eq!(rt; (kept, ports[0], lowered, ticked), (device, port, LATE, 9));
    bytes[100] ^= 4;
    assert_eq!(rt;
        sundial_kept(&bytes, &mut kept, &mut ports, &mut lowered, &mut ticked),
        Fault::NotKept.code()
    );
}

/// The check value of this checksum, in the catalogues of such.
#[test]
fn is_the_usual_checksum(rt: HostRuntime) {
    assert_eq!(rt; crc(b"123456789"), 0xCBF4_3926);
    assert_eq!(rt; crc(b""), 0);
}
