//! A node that is given only calls that it may be given.

ghost use Rattle.std.specs.Prelude.{◌≡◌, ◌≤◌, ◌<◌, ◌+◌, ◌*◌, ◌^◌, true, IfSome, is_some, option_map, Some};
ghost use Rattle.sd_plan.specs.topo.Limits.{IsRates};
ghost use Rattle.sd_plan.specs.declared.Role.TheVariants as role;
ghost use Rattle.sd_device.specs.Limits.{IsDuty, IsEdge};

use super::plain::{Call, Making};
use sd_device::msg::Message;
use sd_device::{Effect, Node};
use sd_num::Rates;
use sd_num::clock::Report;
use sd_plan::{Duty, Edge, Role};

const LIMIT: u64 = 1 << 60;

/// At most this many calls are made of one node.
const MOST: u64 = 1 << 20;

#[derive(Drop)]
pub(super) struct Driven<N: Node> {
    pub(super) node: N,
    given: Option<Duty>,
    pub(super) counter: u64,
    calls: u64,
    ghost given_is: { is_some (N.given node) ≡ true → N.given node ≡ given },
    ghost floor: { N.floor node ≤ counter },
    ghost few: { counter ≤ 2 ^ 60 },
    ghost ceiling: { N.ceiling node ≤ 2 ^ 60 + calls * 2 ^ 41 },
    ghost height: { N.height node ≤ 2 ^ 20 + calls },
    ghost most: { calls ≤ 2 ^ 20 },
}

impl<N: Node> Driven<N> {
    /// The node, where it can be made so.
    pub(super) fn new(making: &Making) -> Option<Driven<N>> {
        if making.counter > LIMIT || making.clock > LIMIT || making.eps > LIMIT {
            return None;
        }
        let node = match making.duty {
            Some(duty) if is_duty(&duty) => N::start(
                duty,
                making.counter,
                making.clock,
                making.eps,
            ),
            None if is_rates(&making.rates) => N::join(
                making.rates,
                making.counter,
                making.clock,
                making.eps,
            ),
            _ => return None,
        };
        Some(Driven {
            node,
            given: None,
            counter: making.counter,
            calls: 0,
        })
    }

    /// What the call sends, where it may be made.
    pub(super) fn call(&mut self, call: &Call) -> Option<Effect> {
        if self.calls >= MOST {
            return None;
        }
        match *call {
            Call::Tick { counter } => self.tick(counter),
            Call::Receive {
                link,
                message,
                counter,
            } => self.receive(link, message, counter),
            Call::Fix {
                counter,
                clock,
                eps,
            } => self.fix(counter, clock, eps),
            Call::Give(duty) => self.give(duty),
            Call::Commit { counter } => self.commit(counter),
            Call::Seal => {
                self.node.on_seal();
                Some(Effect::Quiet)
            }
        }
    }

    fn tick(&mut self, counter: u64) -> Option<Effect>
        requires { self.old.calls < 2 ^ 20 }
    {
        if counter < self.counter || counter > LIMIT {
            return None;
        }
        self.counter = counter;
        self.calls += 1;
        Some(self.node.on_tick(counter))
    }

    fn receive(&mut self, link: u32, message: Message, counter: u64) -> Option<Effect>
        requires { self.old.calls < 2 ^ 20 }
    {
        if counter < self.counter || counter > LIMIT || !is_low(&message) {
            return None;
        }
        self.counter = counter;
        self.calls += 1;
        Some(self.node.on_message(link, message, counter))
    }

    fn fix(&mut self, counter: u64, clock: u64, eps: u64) -> Option<Effect> {
        if counter < self.counter || counter > LIMIT || clock > LIMIT || eps > LIMIT {
            return None;
        }
        self.counter = counter;
        self.node.on_fix(counter, clock, eps);
        Some(Effect::Quiet)
    }

    fn give(&mut self, duty: Duty) -> Option<Effect> {
        if !is_duty(&duty) {
            return None;
        }
        self.given = Some(duty);
        self.node.on_give(duty);
        Some(Effect::Quiet)
    }

    /// A commit of a duty as root that was given and is not taken up.
    fn commit(&mut self, counter: u64) -> Option<Effect>
        requires { self.old.calls < 2 ^ 20 }
    {
        if counter < self.counter
            || counter > LIMIT
            || !is_for_root(&self.given)
            || !self.node.is_given()
        {
            return None;
        }
        self.counter = counter;
        self.calls += 1;
        self.node.on_commit(counter);
        Some(Effect::Quiet)
    }

    /// Its report at the counter that it was shown last.
    pub(super) fn report(&self) -> Report {
        self.node.report(self.counter)
    }
}

fn is_low(message: &Message) -> bool
    ensures low { result ≡ true → (message.now.clock ≤ 2 ^ 60) × (message.now.eps ≤ 2 ^ 60)
        × (message.now.stamp.term ≤ 2 ^ 20) × (message.now.stamp.round ≤ 2 ^ 20) }
{
    message.clock <= 1 << 60
        && message.eps <= 1 << 60
        && message.stamp.term <= 1 << 20
        && message.stamp.round <= 1 << 20
}

/// Whether it is a duty as root.
fn is_for_root(duty: &Option<Duty>) -> bool
    ensures { result ≡ true → option_map (λ d. d.role) duty.now ≡ Some role.Root }
{
    matches!(duty, Some(duty) if duty.role == Role::Root)
}

fn is_rates(rates: &Rates) -> bool
    ensures { result ≡ true → IsRates rates.now }
{
    rates.ppm <= 100_000 && rates.grain <= 1_000_000_000_000
}

fn is_edge(edge: &Option<Edge>) -> bool
    ensures { result ≡ true → IfSome edge.now IsEdge }
{
    match edge {
        Some(edge) => edge.bounds.mid <= 1_000_000_000_000 && edge.bounds.half <= 1_000_000_000_000,
        None => true,
    }
}

fn is_duty(duty: &Duty) -> bool
    ensures { result ≡ true → IsDuty duty.now }
{
    duty.epoch >= 1 && is_rates(&duty.rates) && is_edge(&duty.primary) && is_edge(&duty.backup)
}

/// The duty, where it is within the limits.
pub(super) fn fitting(duty: Duty) -> Option<Duty>
    ensures { IfSome result IsDuty }
{
    if is_duty(&duty) { Some(duty) } else { None }
}
