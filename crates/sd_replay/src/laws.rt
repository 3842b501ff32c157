//! What is promised of replays of nodes that do what the words on devices say.
ghost use Rattle.sd_replay.specs.Devices.{NodesKeepChronicle, NodesContain, NodesStayCalm};

use sd_device::ExactNode;
use sd_device::msg::Observer;

/// What is promised of each replay of such nodes. It does nothing: its clauses are the laws.
pub fn promises<N: ExactNode, V: Observer>()
    ensures chronicle { NodesKeepChronicle N.Node V.Observer }
    ensures contains { NodesContain N.Node V.Observer }
    ensures calm { NodesStayCalm N.Node V.Observer }
{
    N::exact();
}
