//! How often each kind of thing came in all histories.

use sd_fleet::{ApplyFault, Outcome};
use sd_test_fleet_kit::plain::Transition;

/// The words of lines, in the order of their counts.
const WORDS: [&str; 14] = [
    "start", "tick", "recv", "lose", "fail", "fix", "ask", "stage", "give", "commit", "seal",
    "join", "mend", "end",
];

/// Counts by the place of a kind in the order in which it is written.
#[derive(Debug, Drop)]
pub(super) struct Tally {
    /// Refusals but the last, which takes more events than are drawn here.
    refused: [u32; 16],
    accepted: [u32; 14],
    transitions: [u32; 12],
    closed: u32,
    /// Events with which a device went back to its primary parent.
    fell_back: u32,
    /// Receipts with which a window closed.
    closed_by_receipts: u32,
    swept: u32,
    /// Events with which a device entered the staged plan.
    activated: u32,
    /// Events that went a quick way: ticks that send nothing, ticks that send, receipts by a device
    /// with nobody below it, and with somebody.
    quick: [u32; 4],
}

fn place_of_transition(transition: Transition) -> usize {
    match transition {
        Transition::Started(_) => 0,
        Transition::Joined => 1,
        Transition::Given(_) => 2,
        Transition::Entered(_) => 3,
        Transition::Committed(_) => 4,
        Transition::Recommitted(_) => 5,
        Transition::Accepted => 6,
        Transition::Moved => 7,
        Transition::TookOver => 8,
        Transition::Emitted => 9,
        Transition::Sealed => 10,
        Transition::Nothing => 11,
        // no device does so
        Transition::FellBack => 12,
    }
}

/// One more of the kind at a place, or of a kind that is not counted.
fn count(counts: &mut [u32], place: usize) {
    if let Some(count) = counts.get_mut(place) {
        *count = count.saturating_add(1);
    }
}

/// Whether each kind came a few times.
fn are_ample(counts: &[u32]) -> bool {
    for count in counts {
        if *count < 4 {
            return false;
        }
    }
    true
}

/// The place of a word in its table.
fn place_of_word(word: &str) -> usize {
    for (place, known) in WORDS.iter().enumerate() {
        if *known == word {
            return place;
        }
    }
    WORDS.len()
}

impl Tally {
    pub(super) fn new() -> Tally {
        Tally {
            refused: [0; 16],
            accepted: [0; 14],
            transitions: [0; 12],
            closed: 0,
            fell_back: 0,
            closed_by_receipts: 0,
            swept: 0,
            activated: 0,
            quick: [0; 4],
        }
    }

    pub(super) fn refuse(&mut self, fault: ApplyFault) {
        count(&mut self.refused, fault as usize);
    }

    /// An accepted line, with what its device did and what came of it.
    pub(super) fn accept(&mut self, word: &str, transition: Transition, outcome: &Outcome) {
        count(&mut self.accepted, place_of_word(word));
        count(&mut self.transitions, place_of_transition(transition));
        self.closed = self.closed.saturating_add(u32::from(outcome.closed));
        let falls_back = transition == Transition::FellBack;
        self.fell_back = self.fell_back.saturating_add(u32::from(falls_back));
        let closed_by_receipt = outcome.closed && outcome.taken.is_some();
        self.closed_by_receipts = self
            .closed_by_receipts
            .saturating_add(u32::from(closed_by_receipt));
        let enters = outcome.activated.is_some();
        self.activated = self.activated.saturating_add(u32::from(enters));
    }

    /// An event that went a quick way came to this.
    pub(super) fn accept_quickly(&mut self, outcome: &Outcome) {
        let place = match (outcome.sent > 0, outcome.taken.is_some()) {
            (false, false) => 0,
            (true, false) => 1,
            (false, true) => 2,
            (true, true) => 3,
        };
        count(&mut self.quick, place);
    }

    /// Some message is cut off by a failure.
    pub(super) fn sweep(&mut self) {
        self.swept = self.swept.saturating_add(1);
    }

    pub(super) fn is_ample(&self) -> bool {
        are_ample(&self.refused)
            && are_ample(&self.accepted)
            && are_ample(&self.transitions)
            && are_ample(&self.quick)
            && are_ample(&[self.closed, self.swept, self.activated])
    }

    /// Whether nodes that seal themselves closed a window by it a few times, and ticked by a quick
    /// way. None of their receipts goes one.
    pub(super) fn has_sealed_itself(&self) -> bool {
        let [rested, sent, received, relayed] = self.quick;
        are_ample(&[self.closed_by_receipts, rested, sent]) && received == 0 && relayed == 0
    }

    /// The same of nodes that fell back.
    pub(super) fn has_fallen_back(&self) -> bool {
        let [rested, sent, received, relayed] = self.quick;
        are_ample(&[self.fell_back, rested, sent]) && received == 0 && relayed == 0
    }
}
