//! What is driven through a schedule, event by event.
ghost use Rattle.std.specs.Prelude.{List, IsTrue, IfOk};
ghost use Rattle.sd_device.specs.contracts.device.DeviceNode.TheImpl.{ghosts as device};
ghost use Rattle.sd_device.specs.declared.registers.Registers.{Registers};
ghost use Rattle.sd_sched.specs.Spelled.{is_within};
ghost use Rattle.sd_history.specs.World.{Setting};
ghost use Rattle.sd_history.specs.Nodes.{NodeStep};
ghost use Rattle.sd_fleet.specs.Standing as fleets;
ghost use Rattle.sd_gen.specs.Driving.{IsOffered};

use sd_device::Device;
use sd_fleet::{Fleet, Outcome};
use sd_num::NoMemory;
use sd_sched::Event;
use std::alloc::Global;

/// A fleet of devices with all that goes by its events.
pub trait Driven: Drop {
    /// It stands for this run of devices.
    ghost stands: { Self → Setting → List (NodeStep Registers) → Type 0 };

    /// An event happens, if it is accepted; tells whether it is. What it came to is written into an
    /// outcome that the caller lends.
    fn offer(
        &mut self,
        alloc: Global,
        event: &Event,
        outcome: &mut Outcome,
    ) -> Result<bool, NoMemory>
        requires { IsTrue (is_within event.now) }
        ensures { IfOk result (λ accepted. (setting : Setting) (run : List (NodeStep Registers))
            → stands self.old setting run
            → IsOffered stands self.new setting run event.now outcome.new accepted) };

    /// The fleet.
    fn fleet(&self) -> &Fleet<Device>
        ensures { (setting : Setting) (run : List (NodeStep Registers))
            → stands self.now setting run → fleets.StandsFor device result.now setting run };
}
