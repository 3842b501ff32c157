//! What an event is judged by, with how far the open window has come.
ghost use Rattle.std.specs.Prelude.{length};
ghost use Rattle.sd_plan.specs.topo.Topologies.{network};
ghost use Rattle.sd_monitors.specs.renewal.Progressing.{HasDevices};

use crate::renewal::Moment;
use crate::renewal::progress::Progress;

/// What an event is judged by, and how far the open window had come before it.
#[derive(Clone, Copy)]
pub(crate) struct Judge<'a> {
    pub moment: Moment<'a>,
    pub progress: &'a Progress,
    pub ghost devices: { HasDevices (length (network moment.topo.now).devices) progress.now },
}
