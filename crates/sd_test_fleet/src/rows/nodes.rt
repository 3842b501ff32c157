//! Nodes of other kinds than a device: a clock that stands still, and a node that never sends.
ghost use Rattle.std.specs.Prelude.{◌≡◌, ℕ, Bool, false, Option, None, refl};
ghost use Rattle.sd_device.specs.declared.Effect.{Effect};
ghost use Rattle.sd_device.specs.declared.Effect.TheVariants.{Quiet};
ghost use Rattle.sd_test_fleet.specs.Kinds.{still, still_message, still_sends};

use sd_device::msg::{Message, Stamp};
use sd_device::{Effect, Node};
use sd_num::Rates;
use sd_num::clock::Report;
use sd_plan::Duty;

/// A clock that stands still. It reports the same at any counter, and sends that at each tick to
/// those below it. It follows nobody and never acts as root.
#[derive(Drop)]
pub(super) struct StillClock {
    /// The number of the plan that it follows, 0 where it follows none.
    epoch: u32,
    given: Option<Duty>,
}

/// What each clock that stands still reports.
pub(super) fn still_report() -> Report
    ensures { result ≡ still }
{
    Report { clock: 7, eps: 9 }
}

/// What it sends while it follows the plan with this number.
pub(super) fn still_message(epoch: u32) -> Message
    ensures { result ≡ still_message epoch }
{
    let Report { clock, eps } = still_report();
    Message {
        epoch,
        stamp: Stamp { term: 0, round: 0 },
        clock,
        eps,
    }
}

impl Node for StillClock {
    ghost makes = { λ making s. s.given ≡ None };

    ghost steps = { λ s call effect t. effect ≡ still_sends s.epoch call };

    ghost reports = { λ s counter report. report ≡ still };

    ghost given = { λ s. s.given };

    ghost parent = { λ s. None };

    ghost acts = { λ s. false };

    ghost epoch = { λ s. s.epoch };

    ghost sealed = { λ s. false };

    ghost floor = { λ s. 0 };

    ghost ceiling = { λ s. 9 };

    ghost height = { λ s. 0 };

    ghost acting_has_no_parent = { λ s acts. refl };

    ghost planless_has_no_parent = { λ s planless. refl };

    ghost planless_does_not_act = { λ s planless. refl };

    fn start(duty: Duty, _counter: u64, _clock: u64, _eps: u64) -> Self {
        StillClock {
            epoch: duty.epoch,
            given: None,
        }
    }

    fn join(_rates: Rates, _counter: u64, _clock: u64, _eps: u64) -> Self {
        StillClock {
            epoch: 0,
            given: None,
        }
    }

    fn on_tick(&mut self, _counter: u64) -> Effect {
        Effect::Send(still_message(self.epoch))
    }

    fn on_message(&mut self, _link: u32, _message: Message, _counter: u64) -> Effect {
        Effect::Quiet
    }

    fn on_fix(&mut self, _counter: u64, _clock: u64, _eps: u64) {}

    fn on_give(&mut self, duty: Duty) {
        self.given = Some(duty);
    }

    fn on_commit(&mut self, _counter: u64) {
        if let Some(duty) = self.given {
            self.epoch = duty.epoch;
            self.given = None;
        }
    }

    fn on_seal(&mut self) {}

    fn report(&self, _counter: u64) -> Report {
        still_report()
    }

    fn parent(&self) -> Option<u32> {
        None
    }

    fn acts_as_root(&self) -> bool {
        false
    }

    fn epoch(&self) -> u32 {
        self.epoch
    }

    fn is_given(&self) -> bool {
        self.given.is_some()
    }

    fn is_sealed(&self) -> bool {
        false
    }
}

/// A node that does what another does, but sends nothing.
#[derive(Drop)]
pub(super) struct Mute<N: Node> {
    node: N,
}

impl<N: Node> Node for Mute<N> {
    ghost makes = { λ making s. N.makes making s.node };

    ghost steps = { λ s call effect t. (effect ≡ Quiet)
        × ((sent : Effect) × N.steps s.node call sent t.node) };

    ghost reports = { λ s counter report. N.reports s.node counter report };

    ghost given = { λ s. N.given s.node };

    ghost parent = { λ s. N.parent s.node };

    ghost acts = { λ s. N.acts s.node };

    ghost epoch = { λ s. N.epoch s.node };

    ghost sealed = { λ s. N.sealed s.node };

    ghost floor = { λ s. N.floor s.node };

    ghost ceiling = { λ s. N.ceiling s.node };

    ghost height = { λ s. N.height s.node };

    ghost acting_has_no_parent = { λ s. N.acting_has_no_parent s.node };

    ghost planless_has_no_parent = { λ s. N.planless_has_no_parent s.node };

    ghost planless_does_not_act = { λ s. N.planless_does_not_act s.node };

    fn start(duty: Duty, counter: u64, clock: u64, eps: u64) -> Self {
        Mute {
            node: N::start(duty, counter, clock, eps),
        }
    }

    fn join(rates: Rates, counter: u64, clock: u64, eps: u64) -> Self {
        Mute {
            node: N::join(rates, counter, clock, eps),
        }
    }

    fn on_tick(&mut self, counter: u64) -> Effect {
        self.node.on_tick(counter);
        Effect::Quiet
    }

    fn on_message(&mut self, link: u32, message: Message, counter: u64) -> Effect {
        self.node.on_message(link, message, counter);
        Effect::Quiet
    }

    fn on_fix(&mut self, counter: u64, clock: u64, eps: u64) {
        self.node.on_fix(counter, clock, eps);
    }

    fn on_give(&mut self, duty: Duty) {
        self.node.on_give(duty);
    }

    fn on_commit(&mut self, counter: u64) {
        self.node.on_commit(counter);
    }

    fn on_seal(&mut self) {
        self.node.on_seal();
    }

    fn report(&self, counter: u64) -> Report {
        self.node.report(counter)
    }

    fn parent(&self) -> Option<u32> {
        self.node.parent()
    }

    fn acts_as_root(&self) -> bool {
        self.node.acts_as_root()
    }

    fn epoch(&self) -> u32 {
        self.node.epoch()
    }

    fn is_given(&self) -> bool {
        self.node.is_given()
    }

    fn is_sealed(&self) -> bool {
        self.node.is_sealed()
    }
}
