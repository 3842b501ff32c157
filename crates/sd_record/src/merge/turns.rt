//! In which order logs are to bring their next lines.
ghost use Rattle.std.specs.Prelude.{◌≡◌, ◌||◌, ◌&&◌, ℕ, not, false, IfNone, IfSome, OnErr, OnOk};
ghost use Rattle.sd_record.specs.merge.TurnOrder.{is_turn};

use sd_num::NoMemory;
use std::alloc::Global;
use std::collections::BTreeSet;

/// The turn of a log: by its bound, and of equal bounds the earlier log comes first.
#[derive(Clone, Copy, Debug, PartialEq, Eq, PartialOrd, Ord)]
pub struct Turn {
    /// Before this reference nothing is to come of the log.
    pub bound: u64,
    /// The place of the log.
    pub place: usize,
}

/// Turns of logs, of which the first is found at once.
#[derive(Drop)]
pub struct Turns {
    turns: BTreeSet<Turn>,
}

impl Turns {
    ghost use Rattle.sd_record.specs.merge.Turns.{IsFirstTurn, has_turn};

    /// None.
    pub fn new(alloc: Global) -> Turns
        ensures { (bound place : ℕ) → has_turn result bound place ≡ false }
    {
        Turns {
            turns: BTreeSet::new(alloc),
        }
    }

    /// The first.
    pub fn first(&self) -> Option<Turn>
        ensures first { IfSome result (IsFirstTurn self.now) }
        ensures none { IfNone result ((bound place : ℕ) → has_turn self.now bound place ≡ false) }
    {
        match self.turns.first() {
            Some(turn) => Some(*turn),
            None => None,
        }
    }

    /// One more.
    pub fn add(&mut self, turn: Turn) -> Result<(), NoMemory>
        ensures added { OnOk result ((bound place : ℕ) → has_turn self.new bound place
            ≡ (is_turn turn bound place || has_turn self.old bound place)) }
        ensures err { OnErr result ((bound place : ℕ) → has_turn self.new bound place
            ≡ has_turn self.old bound place) }
    {
        match self.turns.insert(turn) {
            Ok(_) => Ok(()),
            Err(_) => Err(NoMemory),
        }
    }

    /// One less.
    pub fn remove(&mut self, turn: Turn)
        ensures { (bound place : ℕ) → has_turn self.new bound place
            ≡ (not (is_turn turn bound place) && has_turn self.old bound place) }
    {
        self.turns.remove(&turn);
    }
}
