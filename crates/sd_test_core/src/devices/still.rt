//! A node that does nothing, and always reports the same.

use sd_device::msg::Message;
use sd_device::{Effect, Node};
use sd_num::Rates;
use sd_num::clock::Report;
use sd_plan::Duty;

#[derive(Drop)]
pub(super) struct Still {
    given: Option<Duty>,
}

impl Node for Still {
    ghost use Rattle.std.specs.Prelude.{◌≡◌, None, true, false, refl};
    ghost use Rattle.sd_device.specs.declared.Effect.TheVariants.{Quiet};

    ghost makes = { λ making s. s.given ≡ None };

    ghost steps = { λ s call effect t. effect ≡ Quiet };

    ghost reports = { λ s counter report. report ≡ record { clock = 0; eps = 7 } };

    ghost given = { λ s. s.given };

    ghost parent = { λ s. None };

    ghost acts = { λ s. false };

    ghost epoch = { λ s. 0 };

    ghost sealed = { λ s. true };

    ghost floor = { λ s. 0 };

    ghost ceiling = { λ s. 0 };

    ghost height = { λ s. 0 };

    ghost acting_has_no_parent = { λ s h. refl };

    ghost planless_has_no_parent = { λ s h. refl };

    ghost planless_does_not_act = { λ s h. refl };

    fn start(duty: Duty, counter: u64, clock: u64, eps: u64) -> Self {
        Still { given: None }
    }

    fn join(rates: Rates, counter: u64, clock: u64, eps: u64) -> Self {
        Still { given: None }
    }

    fn on_tick(&mut self, counter: u64) -> Effect {
        Effect::Quiet
    }

    fn on_message(&mut self, link: u32, message: Message, counter: u64) -> Effect {
        Effect::Quiet
    }

    fn on_fix(&mut self, counter: u64, clock: u64, eps: u64) {}

    fn on_give(&mut self, duty: Duty) {
        self.given = Some(duty);
    }

    fn on_commit(&mut self, counter: u64) {}

    fn on_seal(&mut self) {}

    fn report(&self, counter: u64) -> Report {
        Report { clock: 0, eps: 7 }
    }

    fn parent(&self) -> Option<u32> {
        None
    }

    fn acts_as_root(&self) -> bool {
        false
    }

    fn epoch(&self) -> u32 {
        0
    }

    fn is_given(&self) -> bool {
        self.given.is_some()
    }

    fn is_sealed(&self) -> bool {
        true
    }
}
