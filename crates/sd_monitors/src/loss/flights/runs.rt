//! Spoiled rounds, as runs of consecutive rounds of one term.
ghost use Rattle.std.specs.Prelude.{◌≡◌, ◌≤◌, ◌+◌, ◌-◌, ℕ, ◌&&◌, ◌||◌, None, Some, OnOk, IfNone, IfSome, IsTrue, nat_eq, nat_le, false, true, if◌then◌else◌};
ghost use Rattle.std.specs.HashMap.{spare};
ghost use Rattle.sd_monitors.specs.loss.flights.Runs.{IsRun, ReachesBack, ReachesOn, AreRuns-prop};
ghost use Rattle.sd_monitors.specs.loss.flights.Runs.{HasLongRun};
ghost use Rattle.sd_monitors.specs.loss.flights.RunsKept.{beside, is_there, AllRuns};

use sd_device::msg::Stamp;
use sd_num::NoMemory;
use std::alloc::Global;
use std::collections::HashMap;

/// Rounds of any terms. Beside the first and the last round of each run of consecutive rounds
/// stands the other of the two, so that a new round finds the ends of the runs on both sides at
/// once. What stands beside a round between them no longer counts.
#[derive(Drop)]
pub struct Runs {
    ends: HashMap<(u32, u64), u64>,
    ghost runs: { AllRuns ends } by { λ x y i term. AreRuns-prop (beside ends term) (x term) (y term) i },
}

/// Consecutive rounds of one term, from the first to the last.
#[derive(Clone, Copy)]
struct Run {
    first: u64,
    last: u64,
}

impl Run {
    /// Whether it has more rounds than the limit.
    fn is_longer_than(self, limit: u32) -> bool
        requires { self.first ≤ self.last }
        ensures { result ≡ nat_le limit (self.last - self.first) }
    {
        u64::from(limit) <= self.last - self.first
    }
}

impl Runs {
    ghost use Rattle.sd_monitors.specs.loss.flights.RunsView.{end_beside, has_round, room_of};

    /// No rounds.
    pub fn new(alloc: Global) -> Runs
        ensures { (term round : ℕ) → has_round result term round ≡ false }
    {
        Runs {
            ends: HashMap::new(alloc),
        }
    }

    /// Makes room for this many more rounds.
    pub fn ready(&mut self, count: usize) -> Result<(), NoMemory>
        ensures room { OnOk result (count ≤ room_of self.new) }
        ensures grows { room_of self.old ≤ room_of self.new }
        ensures rounds { (term round : ℕ)
            → has_round self.new term round ≡ has_round self.old term round }
    {
        match self.ends.reserve(count) {
            Ok(()) => Ok(()),
            Err(_) => Err(NoMemory),
        }
    }

    /// Adds a round, and gives the run that it is in now; nothing where it was there before.
    fn add(&mut self, term: u32, round: u64) -> Option<Run>
        requires { 1 ≤ room_of self.old }
        ensures rounds { (t r : ℕ)
            → has_round self.new t r
            ≡ (has_round self.old t r || (nat_eq term t && nat_eq round r)) }
        ensures before { IfNone result (IsTrue (has_round self.old term round)) }
        ensures run { IfSome result (λ run. IsRun (end_beside self.new term) run.first run.last) }
        ensures around { IfSome result (λ run. (run.first ≤ round) × (round ≤ run.last)) }
        ensures room { room_of self.old ≤ room_of self.new + 1 }
    {
        if self.ends.contains_key(&(term, round)) {
            return None;
        }
        let first = first_before(&self.ends, term, round);
        let last = last_after(&self.ends, term, round);
        put(&mut self.ends, term, round);
        redirect(&mut self.ends, term, first, last);
        redirect(&mut self.ends, term, last, first);
        Some(Run { first, last })
    }

    /// Adds a round, and tells whether it is one of more consecutive rounds than the limit.
    pub fn spoil(&mut self, stamp: Stamp, limit: u32) -> bool
        requires { 1 ≤ room_of self.old }
        ensures rounds { (term round : ℕ)
            → has_round self.new term round
            ≡ (has_round self.old term round
            || (nat_eq stamp.term term && nat_eq stamp.round round)) }
        ensures long { IsTrue result → HasLongRun limit (has_round self.new) }
        ensures short { result ≡ false → ¬ HasLongRun limit (has_round self.old)
            → ¬ HasLongRun limit (has_round self.new) }
        ensures room { room_of self.old ≤ room_of self.new + 1 }
    {
        match self.add(stamp.term, stamp.round) {
            Some(joined) => joined.is_longer_than(limit),
            None => false,
        }
    }
}

/// The first round of the run that would end with this one.
fn first_before(ends: &HashMap<(u32, u64), u64>, term: u32, round: u64) -> u64
    requires runs { AllRuns ends.now }
    requires absent { is_there ends.now term round ≡ false }
    ensures { ReachesBack (beside ends.now term) round result }
{
    match round.checked_sub(1) {
        Some(before) => ends.get(&(term, before)).copied().unwrap_or(round),
        None => round,
    }
}

/// The last round of the run that would begin with this one.
fn last_after(ends: &HashMap<(u32, u64), u64>, term: u32, round: u64) -> u64
    requires runs { AllRuns ends.now }
    requires absent { is_there ends.now term round ≡ false }
    ensures { ReachesOn (beside ends.now term) round result }
{
    match round.checked_add(1) {
        Some(after) => ends.get(&(term, after)).copied().unwrap_or(round),
        None => round,
    }
}

/// Puts a round beside itself.
fn put(ends: &mut HashMap<(u32, u64), u64>, term: u32, round: u64)
    requires { 1 ≤ spare ends.old }
    ensures beside { (t r : ℕ)
        → beside ends.new t r
        ≡ (if nat_eq term t && nat_eq round r then Some round else beside ends.old t r) }
    ensures room { spare ends.old ≤ spare ends.new + 1 }
{
    match ends.insert((term, round), round) {
        Ok(_) => {}
        Err(_) => unreachable!(),
    }
}

/// Puts another end beside a round that is there.
fn redirect(ends: &mut HashMap<(u32, u64), u64>, term: u32, round: u64, end: u64)
    requires { IsTrue (is_there ends.old term round) }
    ensures beside { (t r : ℕ)
        → beside ends.new t r
        ≡ (if nat_eq term t && nat_eq round r then Some end else beside ends.old t r) }
    ensures room { spare ends.new ≡ spare ends.old }
{
    match ends.get_mut(&(term, round)) {
        Some(beside) => *beside = end,
        None => unreachable!(),
    }
}
