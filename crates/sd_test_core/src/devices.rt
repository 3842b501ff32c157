//! The device beside a plain program over its whole list of calls, and callers of any kind of node.
mod callers;
mod driven;
mod numbers;
mod plain;
mod registers;
mod still;

use crate::same::assert_same;
use callers::acts_after_ticks;
use driven::{Driven, fitting};
use numbers::Numbers;
use plain::{Call, Making, Plain};
use sd_device::msg::{Message, Stamp};
use sd_device::{Device, Effect, Node};
use sd_num::clock::Report;
use sd_num::{Bounds, Rates};
use sd_plan::{Duty, Edge, Role};
use std::alloc::AllocError;
use std::process::Abort;
use still::Still;

const RATES: Rates = Rates {
    ppm: 200,
    grain: 1_000,
};

fn edge(parent: u32, link: u32) -> Option<Edge> {
    Some(Edge {
        parent,
        link,
        bounds: Bounds { mid: 7, half: 3 },
    })
}

fn duty(epoch: u32, role: Role, primary: Option<Edge>, backup: Option<Edge>) -> Duty {
    Duty {
        epoch,
        role,
        primary,
        backup,
        period: 100,
        wait_first: 300,
        wait_second: 200,
        wait: 900,
        rates: RATES,
    }
}

fn message(epoch: u32, term: u32, round: u64, clock: u128) -> Message {
    Message {
        epoch,
        stamp: Stamp { term, round },
        clock,
        eps: 50,
    }
}

fn made(duty: Option<Duty>) -> Making {
    Making {
        duty,
        rates: RATES,
        counter: 0,
        clock: 0,
        eps: 500,
    }
}

fn tick(counter: u64) -> Call {
    Call::Tick { counter }
}

fn receive(link: u32, message: Message, counter: u64) -> Call {
    Call::Receive {
        link,
        message,
        counter,
    }
}

fn sends(epoch: u32, term: u32, round: u64, clock: u128, eps: u128) -> Effect {
    Effect::Send(Message {
        epoch,
        stamp: Stamp { term, round },
        clock,
        eps,
    })
}

/// A device that was given only such calls as it may be given.
fn device(rt: &impl Abort, duty: Option<Duty>) -> Driven<Device> {
    match Driven::new(&made(duty)) {
        Some(driven) => driven,
        None => panic!(rt; "it cannot be made"),
    }
}

/// A call that may be made sends this.
fn assert_called(rt: &impl Abort, driven: &mut Driven<Device>, call: &Call, effect: Effect) {
    assert_eq!(rt; driven.call(call), Some(effect), "{call:?}");
}

/// Calls, each with what it sends, and the parent afterwards and whether the device acts.
fn assert_turns(
    rt: &impl Abort,
    driven: &mut Driven<Device>,
    turns: &[(Call, Effect, Option<u32>, bool)],
) {
    for (call, effect, parent, acts) in turns {
        assert_called(rt, driven, call, *effect);
        assert_eq!(rt;
            (driven.node.parent(), driven.node.acts_as_root()),
            (*parent, *acts),
            "{call:?}"
        );
    }
}

/// It hears over its first link, and not over the other; then it hears nothing, and moves.
fn hear_and_move(rt: &impl Abort, driven: &mut Driven<Device>) {
    assert_turns(
        rt,
        driven,
        &[
            (
                receive(0, message(1, 0, 1, 110), 120),
                sends(1, 0, 1, 117, 53),
                Some(0),
                false,
            ),
            // the same stamp again, and the other link
            (
                receive(0, message(1, 0, 1, 110), 121),
                Effect::Quiet,
                Some(0),
                false,
            ),
            (
                receive(2, message(1, 0, 2, 110), 125),
                Effect::Quiet,
                Some(0),
                false,
            ),
            (tick(419), Effect::Quiet, Some(0), false),
            (tick(420), Effect::Quiet, Some(2), false),
        ],
    );
}

/// It hears over the other link alone; then it hears nothing, and takes over.
fn take_over(rt: &impl Abort, driven: &mut Driven<Device>) {
    assert_turns(
        rt,
        driven,
        &[
            (
                receive(0, message(1, 0, 5, 500), 500),
                Effect::Quiet,
                Some(2),
                false,
            ),
            (
                receive(2, message(1, 0, 6, 520), 530),
                sends(1, 0, 6, 527, 53),
                Some(2),
                false,
            ),
            (tick(729), Effect::Quiet, Some(2), false),
            (tick(730), sends(1, 1, 1, 727, 1_054), None, true),
            (tick(829), Effect::Quiet, None, true),
            (tick(830), sends(1, 1, 2, 827, 1_054), None, true),
        ],
    );
}

/// It goes over to the next plan as its root.
fn commit_as_root(rt: &impl Abort, driven: &mut Driven<Device>) {
    let root = duty(2, Role::Root, None, None);
    assert_turns(
        rt,
        driven,
        &[
            (Call::Give(root), Effect::Quiet, None, true),
            (Call::Commit { counter: 850 }, Effect::Quiet, None, true),
            (tick(930), sends(2, 1, 3, 927, 1_054), None, true),
        ],
    );
}

#[test]
fn a_backup_root_hears_moves_takes_over_and_is_committed(rt: HostRuntime) {
    let standby = duty(1, Role::BackupRoot, edge(0, 0), edge(2, 2));
    let mut driven = device(&rt, Some(standby));
    hear_and_move(&rt, &mut driven);
    take_over(&rt, &mut driven);
    commit_as_root(&rt, &mut driven);
}

/// How a device stands to its plans.
#[derive(Clone, Copy, Debug, PartialEq, Eq)]
struct Member {
    parent: Option<u32>,
    epoch: u32,
    given: bool,
    sealed: bool,
}

impl Member {
    fn of(driven: &Driven<Device>) -> Member {
        Member {
            parent: driven.node.parent(),
            epoch: driven.node.epoch(),
            given: driven.node.is_given(),
            sealed: driven.node.is_sealed(),
        }
    }
}

fn standing(parent: Option<u32>, epoch: u32, given: bool, sealed: bool) -> Member {
    Member {
        parent,
        epoch,
        given,
        sealed,
    }
}

/// Calls, each with what it sends, and how the device stands afterwards.
fn assert_steps(rt: &impl Abort, driven: &mut Driven<Device>, steps: &[(Call, Effect, Member)]) {
    for (call, effect, due) in steps {
        assert_called(rt, driven, call, *effect);
        assert_eq!(rt; Member::of(driven), *due, "{call:?}");
    }
}

/// It hears nothing before it is given a duty.
fn wait_for_duty(rt: &impl Abort, driven: &mut Driven<Device>) {
    let planless = standing(None, 0, false, true);
    let follower = duty(2, Role::Ordinary, edge(0, 1), edge(1, 2));
    assert_steps(
        rt,
        driven,
        &[
            (tick(20), Effect::Quiet, planless),
            (receive(1, message(2, 1, 1, 0), 30), Effect::Quiet, planless),
            (
                Call::Give(follower),
                Effect::Quiet,
                standing(None, 0, true, true),
            ),
        ],
    );
}

/// It enters with a message of the plan over its first link.
fn enter(rt: &impl Abort, driven: &mut Driven<Device>) {
    let given = standing(None, 0, true, true);
    let entered = standing(Some(0), 2, false, false);
    assert_steps(
        rt,
        driven,
        &[
            // over the backup link, and of another epoch
            (receive(2, message(2, 1, 1, 0), 40), Effect::Quiet, given),
            (receive(1, message(1, 1, 1, 0), 41), Effect::Quiet, given),
            (
                receive(1, message(2, 1, 1, 5), 45),
                sends(2, 1, 1, 12, 53),
                entered,
            ),
            (
                receive(1, message(2, 1, 2, 90), 100),
                sends(2, 1, 2, 97, 53),
                entered,
            ),
            // it may not move before it is sealed
            (tick(2_000), Effect::Quiet, entered),
        ],
    );
}

/// It is sealed and moves.
fn move_when_sealed(rt: &impl Abort, driven: &mut Driven<Device>) {
    let moved = standing(Some(1), 2, false, true);
    assert_steps(
        rt,
        driven,
        &[
            (Call::Seal, Effect::Quiet, standing(Some(0), 2, false, true)),
            (tick(2_001), Effect::Quiet, moved),
            (receive(1, message(2, 2, 1, 5), 2_003), Effect::Quiet, moved),
            (
                receive(2, message(2, 2, 1, 5), 2_004),
                sends(2, 2, 1, 12, 53),
                moved,
            ),
            // it is no backup root
            (tick(9_000), Effect::Quiet, moved),
        ],
    );
}

/// It is committed as the root of the next plan.
fn commit_newcomer(rt: &impl Abort, driven: &mut Driven<Device>) {
    let root = duty(3, Role::Root, None, None);
    let committed = standing(None, 3, false, false);
    assert_steps(
        rt,
        driven,
        &[
            (
                Call::Give(root),
                Effect::Quiet,
                standing(Some(1), 2, true, true),
            ),
            (Call::Commit { counter: 9_100 }, Effect::Quiet, committed),
            (tick(9_199), Effect::Quiet, committed),
            (tick(9_200), sends(3, 3, 1, 7_208, 1_055), committed),
        ],
    );
}

#[test]
fn a_newcomer_enters_seals_moves_and_commits(rt: HostRuntime) {
    let mut driven = device(&rt, None);
    wait_for_duty(&rt, &mut driven);
    enter(&rt, &mut driven);
    move_when_sealed(&rt, &mut driven);
    commit_newcomer(&rt, &mut driven);
}

/// What it reports at the counter that it was shown last.
fn assert_reports(rt: &impl Abort, driven: &Driven<Device>, clock: u128, eps: u128) {
    assert_same(rt, driven.report(), Report { clock, eps });
}

#[test]
fn a_fix_sets_the_report(rt: HostRuntime) {
    let mut driven = device(&rt, None);
    assert_reports(&rt, &driven, 0, 1_500);
    let fix = Call::Fix {
        counter: 10,
        clock: 4_000,
        eps: 9,
    };
    assert_called(&rt, &mut driven, &fix, Effect::Quiet);
    assert_called(&rt, &mut driven, &tick(5_011), Effect::Quiet);
    assert_reports(&rt, &driven, 9_001, 1_011);
}

/// How many calls of a life, and how many lives.
const CALLS: u32 = 100;

const LIVES: u64 = 60;

/// What lives do, a letter each.
const LETTERS: [char; 8] = ['e', 'c', 'r', 'a', 'm', 't', 's', 'n'];

/// The calls of a life, after each of which both say the same.
fn assert_life(
    rt: &impl Abort,
    life: u64,
    numbers: &mut Numbers,
    driven: &mut Driven<Device>,
    plain: &mut Plain,
) -> Result<(), AllocError> {
    for place in 0..CALLS {
        let call = numbers.call(place, driven.counter, &*plain);
        if let Some(effect) = driven.call(&call) {
            let wanted = plain.call(call)?;
            assert_eq!(rt; effect, wanted, "life {life}, call {place}: {call:?}");
        }
        assert!(rt;
            is_as(driven, plain),
            "life {life}, after call {place}: {call:?}"
        );
    }
    Ok(())
}

/// Counts the lives that did something of each letter.
fn count_letters(lives: &mut [u32; 8], plain: &Plain) {
    for (count, letter) in lives.iter_mut().zip(LETTERS) {
        if plain.has_done(letter) {
            *count = count.saturating_add(1);
        }
    }
}

/// A life of a number.
fn run_life(
    rt: &(impl AllocGlobal + Abort),
    lives: &mut [u32; 8],
    life: u64,
) -> Result<(), AllocError> {
    let mut numbers = Numbers { state: life };
    let making = numbers.making();
    let mut plain = Plain::new(rt.alloc(), making);
    let mut driven = match Driven::new(&making) {
        Some(driven) => driven,
        None => panic!(rt; "it cannot be made: {making:?}"),
    };
    assert_life(rt, life, &mut numbers, &mut driven, &mut plain)?;
    count_letters(lives, &plain);
    Ok(())
}

#[test]
fn a_device_does_as_a_plain_program_that_keeps_all_calls(
    rt: HostRuntime,
) -> Result<(), AllocError> {
    let mut lives = [0u32; 8];
    for life in 0..LIVES {
        run_life(&rt, &mut lives, life)?;
    }
    assert!(rt;
        lives.iter().all(|count| *count >= 5),
        "lives with each transition: {lives:?}"
    );
    Ok(())
}

/// Whether the device answers as the plain program does.
fn is_as(driven: &Driven<Device>, plain: &Plain) -> bool {
    driven.node.parent() == plain.parent()
        && driven.node.acts_as_root() == plain.acts()
        && driven.node.epoch() == plain.epoch()
        && driven.node.is_given() == plain.given().is_some()
        && driven.node.is_sealed() == plain.is_sealed()
        && driven.report() == plain.report(driven.counter)
}

#[test]
fn another_type_can_be_a_node(rt: HostRuntime) {
    let root = duty(1, Role::Root, None, None);
    let mut driven = match Driven::<Still>::new(&made(Some(root))) {
        Some(driven) => driven,
        None => panic!(rt; "it cannot be made"),
    };
    for call in [
        tick(1_000),
        receive(0, message(1, 1, 1, 5), 1_001),
        Call::Give(root),
        Call::Commit { counter: 1_002 },
        Call::Seal,
        tick(9_000),
    ] {
        assert_eq!(rt; driven.call(&call), Some(Effect::Quiet), "{call:?}");
    }
    assert_same(&rt, (driven.node.parent(), driven.node.epoch()), (None, 0));
    assert_same(&rt, driven.report(), Report { clock: 0, eps: 7 });
}

#[test]
fn callers_read_the_words_off_a_device(rt: HostRuntime) {
    let standby = duty(1, Role::BackupRoot, edge(0, 0), edge(2, 2));
    let Some(standby) = fitting(standby) else {
        panic!(rt; "it is no duty within the limits");
    };
    assert!(rt; !acts_after_ticks(standby, 300, 499));
    assert!(rt; acts_after_ticks(standby, 300, 500));
}
