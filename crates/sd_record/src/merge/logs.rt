//! Logs of which lines wait, and which line of them all is settled first.
ghost use Rattle.std.specs.Prelude.{◌≡◌, ◌≤◌, ◌<◌, ◌&&◌, ℕ, get_or, length, map, nat_eq, not, set, IfOk, OnOk};
ghost use Rattle.std.specs.List.{range_with_len};
ghost use Rattle.sd_record.specs.merge.Queues.{PopsSettled, ended, new_queue, passed, pushed};
ghost use Rattle.sd_record.specs.merge.TurnOrder.{is_turn};
ghost use Rattle.sd_record.specs.merge.Turns.{has_turn};

use crate::merge::log::{Log, Waiting};
use crate::merge::turns::{Turn, Turns};
use sd_num::NoMemory;
use std::alloc::Global;
use std::marker::Model;

/// Logs of which lines wait. Each has its turn by its bound, so that the one that brings the next
/// line is found at once.
#[derive(Drop)]
pub struct Logs {
    logs: Vec<Log>,
    turns: Turns,
}

impl Model for Logs {
    ghost use Rattle.std.specs.Prelude.{List};
    ghost use Rattle.sd_record.specs.merge.Queues.{Queue};

    ghost Value = { List Queue };

    ghost view = { λ l. l.logs.items };

    ghost use Rattle.sd_record.specs.merge.Turns.{AreTurns};

    ghost invariant = { λ l. AreTurns l.turns l.logs.items };
}

impl Logs {
    /// This many logs, of which nothing is known.
    pub fn new(alloc: Global, count: usize) -> Result<Logs, NoMemory>
        ensures { IfOk result (λ logs. logs ≡ map (λ n. new_queue) (range_with_len 1 count)) }
    {
        let mut logs = Vec::new(alloc);
        let mut turns = Turns::new(alloc);
        for place in 0..count {
            turns.add(Turn { bound: 0, place })?;
            match logs.push(Log::new(alloc)) {
                Ok(()) => {}
                Err(_) => return Err(NoMemory),
            }
        }
        Ok(Logs { logs, turns })
    }

    pub fn count(&self) -> usize
        ensures { result ≡ length self.now }
    {
        self.logs.len()
    }

    /// The log at a place brings nothing before this reference any more.
    pub fn from(&self, place: usize) -> u64
        requires { place < length self.now }
        ensures { result ≡ (get_or self.now place new_queue).from }
    {
        self.logs[place].from()
    }

    /// The log at a place brings nothing before a reference any more.
    pub fn pass(&mut self, place: usize, reference: u64) -> Result<(), NoMemory>
        requires { place < length self.old }
        ensures { OnOk result (self.new
            ≡ set self.old place (passed reference (get_or self.old place new_queue))) }
    {
        let log = &mut self.logs[place];
        let old = log.bound();
        let bound = log.bound_past(reference);
        self.turns.add(Turn { bound, place })?;
        log.pass(reference);
        leave(&mut self.turns, place, old, bound);
        Ok(())
    }

    /// The log at a place goes on with a line.
    pub fn push(&mut self, place: usize, line: Waiting) -> Result<(), NoMemory>
        requires place { place < length self.old }
        requires order { (get_or self.old place new_queue).from ≤ line.reference }
        ensures { OnOk result (self.new
            ≡ set self.old place (pushed line (get_or self.old place new_queue))) }
    {
        let log = &mut self.logs[place];
        let old = log.bound();
        let bound = log.bound_past(line.reference());
        self.turns.add(Turn { bound, place })?;
        match log.push(line) {
            Ok(()) => {
                leave(&mut self.turns, place, old, bound);
                Ok(())
            }
            Err(fault) => {
                leave(&mut self.turns, place, bound, old);
                Err(fault)
            }
        }
    }

    /// All logs have ended.
    pub fn end_all(&mut self) -> Result<(), NoMemory>
        ensures { OnOk result (self.new ≡ map ended self.old) }
    {
        for place in 0..self.count() {
            self.end(place)?;
        }
        Ok(())
    }

    /// The log at a place has ended.
    fn end(&mut self, place: usize) -> Result<(), NoMemory>
        requires { place < length self.old }
        ensures { OnOk result (self.new
            ≡ set self.old place (ended (get_or self.old place new_queue))) }
    {
        let log = &mut self.logs[place];
        let old = log.bound();
        let bound = log.bound_past(u64::MAX);
        self.turns.add(Turn { bound, place })?;
        log.end();
        leave(&mut self.turns, place, old, bound);
        Ok(())
    }

    /// The earliest line that waits leaves, if it is settled.
    pub fn pop_settled(&mut self) -> Result<Option<Waiting>, NoMemory>
        ensures { IfOk result (PopsSettled self.old self.new) }
    {
        let Some(turn) = self.turns.first() else {
            return Ok(None);
        };
        let place = turn.place;
        let log = &mut self.logs[place];
        let bound = log.next_bound();
        self.turns.add(Turn { bound, place })?;
        let line = log.pop();
        leave(&mut self.turns, place, turn.bound, bound);
        Ok(line)
    }
}

/// A log has its turn at one bound, and at another one no more.
fn leave(turns: &mut Turns, place: usize, old: u64, new: u64)
    ensures { (bound at : ℕ) → has_turn turns.new bound at
        ≡ (not (not (nat_eq old new) && is_turn (record { bound = old; place = place }) bound at)
        && has_turn turns.old bound at) }
{
    if old != new {
        turns.remove(Turn { bound: old, place });
    }
}
