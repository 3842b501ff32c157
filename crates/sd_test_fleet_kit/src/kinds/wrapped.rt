//! A node in a struct of its own.

use sd_device::msg::Message;
use sd_device::{Effect, ExactNode, Node};
use sd_num::Rates;
use sd_num::clock::Report;
use sd_plan::Duty;

/// A node that does what the one in it does.
#[derive(Drop)]
pub struct Wrapped<N: Node> {
    node: N,
}

impl<N: Node> Node for Wrapped<N> {
    ghost makes = { λ making s. N.makes making s.node };

    ghost steps = { λ s call effect t. N.steps s.node call effect t.node };

    ghost reports = { λ s counter report. N.reports s.node counter report };

    ghost given = { λ s. N.given s.node };

    ghost parent = { λ s. N.parent s.node };

    ghost acts = { λ s. N.acts s.node };

    ghost epoch = { λ s. N.epoch s.node };

    ghost sealed = { λ s. N.sealed s.node };

    ghost floor = { λ s. N.floor s.node };

    ghost ceiling = { λ s. N.ceiling s.node };

    ghost height = { λ s. N.height s.node };

    ghost acting_has_no_parent = { λ s. N.acting_has_no_parent s.node };

    ghost planless_has_no_parent = { λ s. N.planless_has_no_parent s.node };

    ghost planless_does_not_act = { λ s. N.planless_does_not_act s.node };

    fn start(duty: Duty, counter: u64, clock: u64, eps: u64) -> Self {
        Wrapped {
            node: N::start(duty, counter, clock, eps),
        }
    }

    fn join(rates: Rates, counter: u64, clock: u64, eps: u64) -> Self {
        Wrapped {
            node: N::join(rates, counter, clock, eps),
        }
    }

    fn on_tick(&mut self, counter: u64) -> Effect {
        self.node.on_tick(counter)
    }

    fn rests(&self, counter: u64) -> bool {
        self.node.rests(counter)
    }

    fn keeps_at_ticks(&self) -> bool {
        self.node.keeps_at_ticks()
    }

    fn on_message(&mut self, link: u32, message: Message, counter: u64) -> Effect {
        self.node.on_message(link, message, counter)
    }

    fn keeps_at_messages(&self) -> bool {
        self.node.keeps_at_messages()
    }

    fn on_fix(&mut self, counter: u64, clock: u64, eps: u64) {
        self.node.on_fix(counter, clock, eps);
    }

    fn on_give(&mut self, duty: Duty) {
        self.node.on_give(duty);
    }

    fn on_commit(&mut self, counter: u64) {
        self.node.on_commit(counter);
    }

    fn on_seal(&mut self) {
        self.node.on_seal();
    }

    fn report(&self, counter: u64) -> Report {
        self.node.report(counter)
    }

    fn parent(&self) -> Option<u32> {
        self.node.parent()
    }

    fn acts_as_root(&self) -> bool {
        self.node.acts_as_root()
    }

    fn epoch(&self) -> u32 {
        self.node.epoch()
    }

    fn is_given(&self) -> bool {
        self.node.is_given()
    }

    fn is_sealed(&self) -> bool {
        self.node.is_sealed()
    }
}

impl<N: ExactNode> ExactNode for Wrapped<N> {
    ghost stands = { λ s life. N.stands s.node life };

    fn exact() {
        N::exact();
    }
}
