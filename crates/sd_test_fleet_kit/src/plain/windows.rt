//! Plans and the window between two of them.

use crate::plain::history::{Plain, Subject, Transition};
use sd_sched::Event;

/// How the change of plans stands.
#[derive(Clone, Copy, PartialEq)]
pub enum Stage {
    NoWindow,
    Preparing,
    Committed,
}

impl Plain<'_> {
    /// The number of the plan in force: each closing puts the next one in force.
    pub fn epoch(&self) -> u32 {
        let mut epoch = 1u32;
        for step in &self.steps {
            if step.closed {
                epoch = epoch.saturating_add(1);
            }
        }
        epoch
    }

    /// The number of the staged plan, where a window is open, or of the one that comes next.
    pub fn staged_epoch(&self) -> u32 {
        self.epoch().saturating_add(1)
    }

    /// The place of the stage that opened the open window.
    pub fn opening(&self) -> Option<usize> {
        let mut opening = None;
        for step in &self.steps {
            if step.closed {
                opening = None;
            } else if matches!(step.event, Event::Stage { .. }) {
                opening = Some(step.place);
            }
        }
        opening
    }

    /// Whether a window is open.
    pub fn is_open(&self) -> bool {
        self.opening().is_some()
    }

    /// The place of the latest commit.
    fn latest_commit(&self) -> Option<usize> {
        let mut commit = None;
        for step in &self.steps {
            if matches!(step.event, Event::Commit { .. }) {
                commit = Some(step.place);
            }
        }
        commit
    }

    /// How the change of plans stands.
    pub fn stage(&self) -> Stage {
        match (self.opening(), self.latest_commit()) {
            (None, _) => Stage::NoWindow,
            (Some(opening), Some(commit)) if opening < commit => Stage::Committed,
            _ => Stage::Preparing,
        }
    }

    /// Whether the device was made by a join in the open window.
    pub fn joined_in_window(&self, d: u32) -> bool {
        match (self.opening(), self.latest(d, Subject::Making)) {
            (Some(opening), Some(made)) => made.transition == Transition::Joined
                && opening < made.place,
            _ => false,
        }
    }

    /// Whether the device is a member of the plan in force.
    pub fn is_in_force(&self, d: u32) -> bool {
        self.net.is_member(self.epoch(), d)
    }

    /// Whether a window is open and the device is a member of the staged plan.
    pub fn is_in_staged(&self, d: u32) -> bool {
        self.is_open() && self.net.is_member(self.staged_epoch(), d)
    }

    /// Whether the device is live: it is up, and a member of the plan in force or joined in the open
    /// window.
    pub fn is_counted(&self, d: u32) -> bool {
        self.is_up(d) && (self.is_in_force(d) || self.joined_in_window(d))
    }

    /// Whether the device is up and a member of the staged plan.
    pub fn is_present(&self, d: u32) -> bool {
        self.is_up(d) && self.is_in_staged(d)
    }

    /// Whether the device follows the staged plan and is sealed.
    fn has_settled(&self, d: u32) -> bool {
        self.is_of(d, self.staged_epoch()) && self.is_sealed(d)
    }

    /// Whether the window closes with what has happened so far.
    pub(crate) fn can_close(&self) -> bool {
        let mut some = false;
        for d in 0..self.net.devices {
            if self.is_present(d) {
                some = true;
                if !self.has_settled(d) {
                    return false;
                }
            }
        }
        some && self.stage() == Stage::Committed
    }

    /// Closes the window with the latest step.
    pub(crate) fn close(&mut self) {
        if let Some(step) = self.steps.last_mut() {
            step.closed = true;
        }
    }
}
