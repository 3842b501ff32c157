//! A receipt and a tick of a node that says that it answers as before after such a call.
ghost use Rattle.std.specs.Prelude.{◌≡◌, ◌≢◌, ℕ, ◌<◌, ◌≤◌, ◌+◌, ◌^◌, length, Some, None, IsTrue};
ghost use Rattle.sd_device.specs.declared.msg.Message.{Message};
ghost use Rattle.sd_device.specs.Calls.{Tick, Receive};
ghost use Rattle.sd_device.specs.Steps.{Keeps};
ghost use Rattle.sd_device.specs.Limits.{IfSent};
ghost use Rattle.sd_history.specs.Nodes.{answers_of};
ghost use Rattle.sd_fleet.specs.Calling.{IsNode, IsMessage, CanCall};
ghost use Rattle.sd_fleet.specs.Nodes.{node_at, IsCallable};
ghost use Rattle.sd_fleet.specs.Keeping.{KeepsAt};

use crate::nodes::CallContext;
use sd_device::msg::Flight;
use sd_device::{Effect, Node};

/// Whether the node of a device says that it answers as before after any message.
#[inline(always)]
pub(crate) fn keeps_at_messages<N: Node>(nodes: &[Option<N>], d: u32) -> bool
    requires place { d < length nodes.now }
    ensures there { IsTrue result → node_at nodes.now d ≢ None }
    ensures keeps { IsTrue result → (n : N) → node_at nodes.now d ≡ Some n
        → (link : ℕ) (message : Message) (counter : ℕ)
        → Keeps N.steps n (Receive link message counter) (answers_of N.Node) }
{
    match &nodes[d as usize] {
        Some(node) => node.keeps_at_messages(),
        None => false,
    }
}

/// Whether the node of a device says that it answers as before after any tick.
#[inline(always)]
pub(crate) fn keeps_at_ticks<N: Node>(nodes: &[Option<N>], d: u32) -> bool
    requires place { d < length nodes.now }
    ensures there { IsTrue result → node_at nodes.now d ≢ None }
    ensures keeps { IsTrue result → (n : N) → node_at nodes.now d ≡ Some n
        → (counter : ℕ) → Keeps N.steps n (Tick counter) (answers_of N.Node) }
{
    match &nodes[d as usize] {
        Some(node) => node.keeps_at_ticks(),
        None => false,
    }
}

/// The node of a device, which answers as before after any message, receives a flight.
#[inline(always)]
pub(crate) fn hear_at<N: Node>(
    nodes: &mut [Option<N>],
    d: u32,
    counter: u64,
    flight: &Flight,
    context: &CallContext,
) -> Effect
    requires events { context.now.events ≤ 2 ^ 26 }
    requires place { d < length nodes.old }
    requires there { node_at nodes.old d ≢ None }
    requires callable { (n : N) → node_at nodes.old d ≡ Some n
        → IsCallable N.Node context.now
        (Receive flight.now.link flight.now.message counter) n }
    requires keeps { (n : N) → node_at nodes.old d ≡ Some n
        → Keeps N.steps n (Receive flight.now.link flight.now.message counter)
        (answers_of N.Node) }
    ensures { KeepsAt N.Node nodes.old d (Receive flight.now.link flight.now.message counter)
        context.now result nodes.new }
{
    match &mut nodes[d as usize] {
        Some(node) => hear(node, counter, flight, context),
        None => unreachable!(),
    }
}

/// A node that answers as before after any message receives a flight.
#[inline(always)]
fn hear<N: Node>(node: &mut N, counter: u64, flight: &Flight, context: &CallContext) -> Effect
    requires events { context.now.events ≤ 2 ^ 26 }
    requires numbers { IsNode N.Node context.now.events context.now.reading node.old }
    requires can { CanCall N.Node context.now.events context.now.reading node.old
        (Receive flight.now.link flight.now.message counter) }
    requires keeps { Keeps N.steps node.old
        (Receive flight.now.link flight.now.message counter) (answers_of N.Node) }
    ensures step { N.steps node.old (Receive flight.now.link flight.now.message counter) result
        node.new }
    ensures numbers { IsNode N.Node (context.now.events + 1) counter node.new }
    ensures sent { IfSent result (IsMessage (context.now.events + 1)) }
    ensures answers { answers_of N.Node node.new ≡ answers_of N.Node node.old }
{
    node.on_message(flight.link, flight.message, counter)
}

/// The node of a device, which answers as before after any tick, ticks.
#[inline(always)]
pub(crate) fn emit_at<N: Node>(
    nodes: &mut [Option<N>],
    d: u32,
    counter: u64,
    context: &CallContext,
) -> Effect
    requires events { context.now.events ≤ 2 ^ 26 }
    requires place { d < length nodes.old }
    requires there { node_at nodes.old d ≢ None }
    requires callable { (n : N) → node_at nodes.old d ≡ Some n
        → IsCallable N.Node context.now (Tick counter) n }
    requires keeps { (n : N) → node_at nodes.old d ≡ Some n
        → Keeps N.steps n (Tick counter) (answers_of N.Node) }
    ensures { KeepsAt N.Node nodes.old d (Tick counter) context.now result nodes.new }
{
    match &mut nodes[d as usize] {
        Some(node) => emit(node, counter, context),
        None => unreachable!(),
    }
}

/// A node that answers as before after any tick ticks.
#[inline(always)]
fn emit<N: Node>(node: &mut N, counter: u64, context: &CallContext) -> Effect
    requires events { context.now.events ≤ 2 ^ 26 }
    requires numbers { IsNode N.Node context.now.events context.now.reading node.old }
    requires can { CanCall N.Node context.now.events context.now.reading node.old (Tick counter) }
    requires keeps { Keeps N.steps node.old (Tick counter) (answers_of N.Node) }
    ensures step { N.steps node.old (Tick counter) result node.new }
    ensures numbers { IsNode N.Node (context.now.events + 1) counter node.new }
    ensures sent { IfSent result (IsMessage (context.now.events + 1)) }
    ensures answers { answers_of N.Node node.new ≡ answers_of N.Node node.old }
{
    node.on_tick(counter)
}
