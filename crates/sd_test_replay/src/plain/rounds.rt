//! The premise on losses, judged once the event is in the list.

use super::replay::PlainReplay;
use sd_device::msg::Stamp;
use sd_plan::topo::Thing;
use sd_test_fleet_kit::plain::{Sent, Step, received_by};

/// Whether a step fails the link, the sender or the receiver of a message.
fn cuts(step: &Step, sent: &Sent) -> bool {
    step.fails(Thing::Link(sent.flight.link))
        || step.fails(Thing::Device(sent.flight.sender))
        || step.fails(Thing::Device(sent.flight.receiver))
}

impl PlainReplay<'_> {
    /// A moment at which a round is spoiled that is one of too many in a row.
    pub(crate) fn is_against_loss(&self) -> bool {
        for sent in &self.plain.sent {
            if self.is_judged_now(sent)
                && self.is_spoiled_by(sent)
                && self.is_one_of_many(sent.flight.message.stamp)
            {
                return true;
            }
        }
        false
    }

    /// The first event past the due of a message.
    fn judgement(&self, sent: &Sent) -> Option<Step> {
        for step in &self.plain.steps {
            if step.event.reference() > sent.flight.due {
                return Some(*step);
            }
        }
        None
    }

    /// Whether the latest event is the first one past the due of a message.
    fn is_judged_now(&self, sent: &Sent) -> bool {
        sent.flight.due < self.plain.latest_reference()
            && match self.judgement(sent) {
                Some(step) => step.place.saturating_add(1) == self.plain.steps.len(),
                None => false,
            }
    }

    /// Whether a message that reached did not come in time, though nothing failed that it needed.
    fn is_spoiled_by(&self, sent: &Sent) -> bool {
        match self.judgement(sent) {
            Some(judgement) => sent.flight.reaches && !self.is_excused(sent, judgement.place),
            None => false,
        }
    }

    /// Whether a message was received, or something that it needed failed, up to a place.
    fn is_excused(&self, sent: &Sent, place: usize) -> bool {
        for step in &self.plain.steps {
            let came = received_by(&step.event) == Some(sent.flight.number);
            let was_cut = step.place > sent.place && cuts(step, sent);
            if step.place <= place && (came || was_cut) {
                return true;
            }
        }
        false
    }

    fn is_spoiled(&self, term: u32, round: u64) -> bool {
        let stamp = Stamp { term, round };
        for sent in &self.plain.sent {
            if sent.flight.message.stamp == stamp && self.is_spoiled_by(sent) {
                return true;
            }
        }
        false
    }

    /// Whether more rounds than may be are spoiled from one on.
    fn are_spoiled_from(&self, term: u32, round: u64) -> bool {
        for ahead in 0..=u64::from(self.site.loss) {
            if !self.is_spoiled(term, round.saturating_add(ahead)) {
                return false;
            }
        }
        true
    }

    /// Whether a spoiled round is one of more in a row than may be.
    fn is_one_of_many(&self, stamp: Stamp) -> bool {
        for back in 0..=u64::from(self.site.loss) {
            if let Some(round) = stamp.round.checked_sub(back)
                && self.are_spoiled_from(stamp.term, round)
            {
                return true;
            }
        }
        false
    }
}
