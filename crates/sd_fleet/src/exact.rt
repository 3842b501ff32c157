//! Fleets of nodes that do what the words on devices say.
ghost use Rattle.sd_fleet.specs.Devices.{NodesKeepChronicle};

use sd_device::ExactNode;

/// What is promised of each fleet of such nodes. It does nothing: its clause is the law.
pub fn keeps_chronicle<N: ExactNode>()
    ensures { NodesKeepChronicle N.Node }
{
    N::exact();
}
