//! The nodes of a fleet, each at the place of its device: how one of them is made, called and asked,
//! and what it replies.
ghost use Rattle.std.specs.Prelude.{◌≡◌, ◌≢◌, ◌<◌, ◌≤◌, ◌+◌, ◌^◌, ℕ, length, Option, Some, None, IsTrue};
ghost use Rattle.sd_plan.specs.declared.Duty.{Duty};
ghost use Rattle.sd_device.specs.Calls.{Making};
ghost use Rattle.sd_device.specs.Limits.{IfSent};
ghost use Rattle.sd_device.specs.Words.{making_counter};
ghost use Rattle.sd_history.specs.Steps.{Calls};
ghost use Rattle.sd_history.specs.Nodes.{answers_of as node_answers};
ghost use Rattle.sd_world.specs.membership.Standing.{summary};
ghost use Rattle.sd_fleet.specs.Doing.{call_seen};
ghost use Rattle.sd_fleet.specs.Calling.{IsMessage, IsNode, CanCall, GivenAfter, MaySend, reading_after};
ghost use Rattle.sd_fleet.specs.Nodes.{node_at, MakesAt, CallsAt, AsksAt, RestsAt, CanAct};

use crate::{AnswerSummary, Call, Reply};
use sd_device::{Effect, Node};

/// When a node is called.
#[derive(Clone, Copy)]
pub(crate) struct CallContext {
    /// The number of the plan whose duty was given to it and is not taken up yet.
    pub given: Option<u32>,
    /// After how many events, and what counter it read last: for the prover, since numbers rise by
    /// so much an event and no more.
    pub events: u64,
    pub reading: u64,
}

/// Puts a node that was made at the place of its device.
pub(crate) fn place<N: Node>(nodes: &mut [Option<N>], d: u32, node: N) -> Reply
    requires place { d < length nodes.old }
    requires given { N.given node ≡ None }
    ensures { (making : Making) → N.makes making node
        → ((events : ℕ) → IsNode N.Node (events + 1) (making_counter making) node)
        → MakesAt N.Node nodes.old d making result nodes.new }
{
    let answers = answers_of(&node, None);
    nodes[d as usize] = Some(node);
    Reply::called(Effect::Quiet, answers)
}

/// Calls the node of a device.
pub(crate) fn call_at<N: Node>(
    nodes: &mut [Option<N>],
    d: u32,
    called: &Call<'_>,
    context: &CallContext,
) -> Reply
    requires events { context.now.events ≤ 2 ^ 26 }
    requires can { CanAct N.Node nodes.old context.now (Calls d (call_seen called.now)) }
    ensures { CallsAt N.Node nodes.old d (call_seen called.now) context.now result nodes.new }
{
    match &mut nodes[d as usize] {
        Some(node) => {
            let effect = call(node, called, context);
            let answers = answers_of(node, given_by(called, context.given));
            Reply::called(effect, answers)
        }
        None => unreachable!(),
    }
}

/// Whether the node of a device rests at a tick.
#[inline(always)]
pub(crate) fn rests_at<N: Node>(nodes: &[Option<N>], d: u32, counter: u64) -> bool
    requires place { d < length nodes.now }
    requires floor { (n : N) → node_at nodes.now d ≡ Some n → N.floor n ≤ counter }
    ensures { IsTrue result → RestsAt N.Node nodes.now d counter }
{
    match &nodes[d as usize] {
        Some(node) => node.rests(counter),
        None => false,
    }
}

/// Asks the node of a device for a report.
pub(crate) fn ask_at<N: Node>(
    nodes: &[Option<N>],
    d: u32,
    counter: u64,
    context: &CallContext,
) -> Reply
    requires events { context.now.events ≤ 2 ^ 26 }
    requires place { d < length nodes.now }
    requires there { node_at nodes.now d ≢ None }
    requires numbers { (n : N) → node_at nodes.now d ≡ Some n
        → IsNode N.Node context.now.events context.now.reading n }
    requires rises { context.now.reading ≤ counter }
    requires counter { counter ≤ 2 ^ 60 }
    ensures { AsksAt N.Node nodes.now d counter context.now result }
{
    match &nodes[d as usize] {
        Some(node) => Reply::reported(node.report(counter)),
        None => unreachable!(),
    }
}

/// Calls a node. A tick and a message alone may send something.
#[inline(always)]
fn call<N: Node>(node: &mut N, call: &Call<'_>, context: &CallContext) -> Effect
    requires events { context.now.events ≤ 2 ^ 26 }
    requires numbers { IsNode N.Node context.now.events context.now.reading node.old }
    requires can { CanCall N.Node context.now.events context.now.reading node.old
        (call_seen call.now) }
    ensures step { N.steps node.old (call_seen call.now) result node.new }
    ensures given { GivenAfter (call_seen call.now) (N.given node.old) (N.given node.new) }
    ensures numbers { IsNode N.Node (context.now.events + 1)
        (reading_after (call_seen call.now) context.now.reading) node.new }
    ensures sent { IfSent result (IsMessage (context.now.events + 1)) }
    ensures quiet { MaySend (call_seen call.now) result }
{
    match *call {
        Call::Tick { counter } => return node.on_tick(counter),
        Call::Receive {
            link,
            message,
            counter,
        } => return node.on_message(link, *message, counter),
        Call::Fix {
            counter,
            clock,
            eps,
        } => node.on_fix(counter, clock, eps),
        Call::Give { duty } => node.on_give(*duty),
        Call::Commit { counter } => node.on_commit(counter),
        Call::Seal => node.on_seal(),
    }
    Effect::Quiet
}

/// What a node answers. It does not say of which plan the duty is that was given to it, so that is
/// told here.
#[inline(always)]
fn answers_of<N: Node>(node: &N, given: Option<u32>) -> AnswerSummary
    requires { (duty : Duty) → N.given node.now ≡ Some duty → given ≡ Some duty.epoch }
    ensures { result ≡ summary (node_answers N.Node node.now) }
{
    AnswerSummary {
        parent: node.parent(),
        acts: node.acts_as_root(),
        epoch: node.epoch(),
        given: if node.is_given() { given } else { None },
        sealed: node.is_sealed(),
    }
}

/// The number of the plan whose duty the node was given last, with this call.
#[inline(always)]
fn given_by(call: &Call<'_>, before: Option<u32>) -> Option<u32>
    ensures { (old new : Option Duty) → GivenAfter (call_seen call.now) old new
        → ((duty : Duty) → old ≡ Some duty → before ≡ Some duty.epoch)
        → ((duty : Duty) → new ≡ Some duty → result ≡ Some duty.epoch) }
{
    match call {
        Call::Give { duty } => Some(duty.epoch),
        _ => before,
    }
}
