//! A device that goes back to its primary parent.
ghost use Rattle.std.specs.Prelude.{◌≡◌};
ghost use Rattle.sd_device.specs.declared.registers.Mode.TheVariants.{Backup};
ghost use Rattle.sd_device.specs.Limits.{IsSound};
ghost use Rattle.sd_test_fleet_kit.specs.Kinds.{back as back_in};

use sd_device::msg::Message;
use sd_device::{Device, Effect, Mode, Node, Registers};
use sd_num::Rates;
use sd_num::clock::Report;
use sd_plan::Duty;

/// A device that moved goes back to its primary parent when it hears news of it.
#[derive(Drop)]
pub struct FallingBack {
    device: Device,
}

/// A device that moved, back at its primary parent.
fn back(moved: Registers) -> Registers
    requires sound { IsSound moved }
    requires moved { moved.mode ≡ Backup }
    ensures back { result ≡ back_in moved }
    ensures sound { IsSound result }
{
    Registers {
        mode: Mode::Primary,
        ..moved
    }
}

impl Node for FallingBack {
    ghost use Rattle.sd_device.specs.Rules.{made, report_in, parent_in, acts_in, epoch_in, floor_in, ceiling_in, height_in};
    ghost use Rattle.sd_device.specs.Planless.{acting_leads_nowhere, planless_leads_nowhere, planless_acts_not};
    ghost use Rattle.sd_test_fleet_kit.specs.Kinds.{falls_back};

    ghost makes = { λ making s. s.device ≡ made making };

    ghost steps = { λ s call effect t. falls_back s.device call ≡ (t.device, effect) };

    ghost reports = { λ s counter report. report ≡ report_in s.device counter };

    ghost given = { λ s. s.device.given };

    ghost parent = { λ s. parent_in s.device };

    ghost acts = { λ s. acts_in s.device };

    ghost epoch = { λ s. epoch_in s.device };

    ghost sealed = { λ s. s.device.sealed };

    ghost floor = { λ s. floor_in s.device };

    ghost ceiling = { λ s. ceiling_in s.device };

    ghost height = { λ s. height_in s.device };

    ghost acting_has_no_parent = { λ s. acting_leads_nowhere s.device };

    ghost planless_has_no_parent = { λ s. planless_leads_nowhere s.device };

    ghost planless_does_not_act = { λ s. planless_acts_not s.device };

    fn start(duty: Duty, counter: u64, clock: u64, eps: u64) -> Self {
        FallingBack {
            device: Device::start(duty, counter, clock, eps),
        }
    }

    fn join(rates: Rates, counter: u64, clock: u64, eps: u64) -> Self {
        FallingBack {
            device: Device::join(rates, counter, clock, eps),
        }
    }

    fn on_tick(&mut self, counter: u64) -> Effect {
        self.device.on_tick(counter)
    }

    fn rests(&self, counter: u64) -> bool {
        self.device.rests(counter)
    }

    fn keeps_at_ticks(&self) -> bool {
        self.device.keeps_at_ticks()
    }

    fn on_message(&mut self, link: u32, message: Message, counter: u64) -> Effect {
        let moved = self.device.registers();
        if matches!(moved.mode, Mode::Backup) {
            let mut back = Device::with_registers(back(moved));
            let effect = back.on_message(link, message, counter);
            if matches!(effect, Effect::Send(_)) {
                self.device = back;
                return effect;
            }
        }
        self.device.on_message(link, message, counter)
    }

    fn on_fix(&mut self, counter: u64, clock: u64, eps: u64) {
        self.device.on_fix(counter, clock, eps);
    }

    fn on_give(&mut self, duty: Duty) {
        self.device.on_give(duty);
    }

    fn on_commit(&mut self, counter: u64) {
        self.device.on_commit(counter);
    }

    fn on_seal(&mut self) {
        self.device.on_seal();
    }

    fn report(&self, counter: u64) -> Report {
        self.device.report(counter)
    }

    fn parent(&self) -> Option<u32> {
        self.device.parent()
    }

    fn acts_as_root(&self) -> bool {
        self.device.acts_as_root()
    }

    fn epoch(&self) -> u32 {
        self.device.epoch()
    }

    fn is_given(&self) -> bool {
        self.device.is_given()
    }

    fn is_sealed(&self) -> bool {
        self.device.is_sealed()
    }
}
