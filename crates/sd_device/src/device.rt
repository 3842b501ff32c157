//! A device: its registers behind the trait that the fleet drives.
use crate::msg::Message;
use crate::registers::{Mode, Registers};
use crate::{Effect, ExactNode, Node};
use sd_num::Rates;
use sd_num::clock::{Estimate, Report};
use sd_plan::Duty;
use std::marker::Model;

/// A device that follows its plan: it relays what comes from its parent, moves to its backup parent
/// or takes over as root after a silence, and takes up the duties of later plans.
///
/// ```
/// // a leaf with a backup parent: it hears from its parent, and then of nothing for its wait
/// let mut leaf = Device::start(duty, counter, clock, eps);
/// let relayed = leaf.on_message(link, message, counter + 1000);
/// // Effect::Send: what it heard goes on to those below
/// let _: Effect = leaf.on_tick(counter + 1000 + duty.wait);
/// // leaf.parent() is its backup parent, and leaf.report(..) has grown its uncertainty meanwhile
/// ```
#[derive(Drop)]
pub struct Device {
    pub(crate) registers: Registers,
}

impl Model for Device {
    ghost use Rattle.sd_device.specs.declared.registers.Registers.{Registers};
    ghost use Rattle.sd_device.specs.Limits.{IsSound};

    ghost Value = { Registers };

    ghost view = { λ d. d.registers };

    ghost invariant = { λ d. IsSound d.registers };
}

impl Device {
    ghost use Rattle.std.specs.Prelude.{◌≡◌};
    ghost use Rattle.sd_device.specs.Living.{Life};
    ghost use Rattle.sd_device.specs.Limits.{IsSound};
    ghost use Rattle.sd_device.specs.Standing.{StandsFor};

    /// All that it keeps, as plain numbers.
    pub fn registers(&self) -> Registers
        ensures registers { result ≡ self.now }
        ensures sound { IsSound result }
    {
        let Self { registers } = self;
        *registers
    }

    /// The device that keeps these registers: it goes on as the one that they were taken from.
    /// Registers are sound where the rates and each duty are within their limits, and the mode is
    /// `Idle` where there is no duty.
    pub fn with_registers(registers: Registers) -> Device
        requires sound { IsSound registers }
        ensures registers { result ≡ registers }
        ensures told { (life : Life) → StandsFor registers life → StandsFor result life }
    {
        Device { registers }
    }
}

impl Node for Device {
    ghost use Rattle.std.specs.Prelude.{◌≡◌};
    ghost use Rattle.sd_device.specs.Rules.{made, called, report_in, parent_in, acts_in, epoch_in, floor_in, ceiling_in, height_in};
    ghost use Rattle.sd_device.specs.Planless.{acting_leads_nowhere, planless_leads_nowhere, planless_acts_not};

    ghost makes = { λ making s. s ≡ made making };

    ghost steps = { λ s call effect t. called s call ≡ (t, effect) };

    ghost reports = { λ s counter report. report ≡ report_in s counter };

    ghost given = { λ s. s.given };

    ghost parent = { parent_in };

    ghost acts = { acts_in };

    ghost epoch = { epoch_in };

    ghost sealed = { λ s. s.sealed };

    ghost floor = { floor_in };

    ghost ceiling = { ceiling_in };

    ghost height = { height_in };

    ghost acting_has_no_parent = { acting_leads_nowhere };

    ghost planless_has_no_parent = { planless_leads_nowhere };

    ghost planless_does_not_act = { planless_acts_not };

    fn start(duty: Duty, counter: u64, clock: u64, eps: u64) -> Self {
        Device {
            registers: Registers::started(duty, counter, u128::from(clock), u128::from(eps)),
        }
    }

    fn join(rates: Rates, counter: u64, clock: u64, eps: u64) -> Self {
        Device {
            registers: Registers::joined(rates, counter, u128::from(clock), u128::from(eps)),
        }
    }

    fn on_tick(&mut self, counter: u64) -> Effect {
        self.registers.tick(counter)
    }

    #[inline(always)]
    fn rests(&self, counter: u64) -> bool {
        self.registers.rests(counter)
    }

    // One that acts as root goes on to.
    #[inline(always)]
    fn keeps_at_ticks(&self) -> bool {
        self.acts_as_root()
    }

    #[inline(always)]
    fn on_message(&mut self, link: u32, message: Message, counter: u64) -> Effect {
        self.registers.receive(link, &message, counter)
    }

    // One that was given no duty takes none up.
    #[inline(always)]
    fn keeps_at_messages(&self) -> bool {
        !self.is_given()
    }

    fn on_fix(&mut self, counter: u64, clock: u64, eps: u64) {
        self.registers.estimate = Estimate::set(clock, eps, counter);
    }

    fn on_give(&mut self, duty: Duty) {
        self.registers.given = Some(duty);
    }

    fn on_commit(&mut self, counter: u64) {
        if let Some(duty) = self.registers.given {
            self.registers.commit(duty, counter);
        }
    }

    fn on_seal(&mut self) {
        self.registers.sealed = true;
    }

    fn report(&self, counter: u64) -> Report {
        self.registers.report(counter)
    }

    fn parent(&self) -> Option<u32> {
        match self.registers.edge() {
            Some(edge) => Some(edge.parent),
            None => None,
        }
    }

    fn acts_as_root(&self) -> bool {
        self.registers.mode == Mode::Acting
    }

    fn epoch(&self) -> u32 {
        self.registers.epoch()
    }

    fn is_given(&self) -> bool {
        self.registers.given.is_some()
    }

    fn is_sealed(&self) -> bool {
        self.registers.sealed
    }
}

impl ExactNode for Device {
    ghost use Rattle.sd_device.specs.Standing.{StandsFor};

    ghost stands = { StandsFor };

    fn exact() {}
}
