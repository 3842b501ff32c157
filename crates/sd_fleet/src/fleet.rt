//! The fleet: which events are refused, and what each accepted event comes to.
ghost use Rattle.std.specs.Prelude.{◌≡◌, ◌≤◌, ◌<◌, ◌^◌, ℕ, List, [], length, replicate, false, ◌+◌, ◌++◌, option_to_list, option_map, IsTrue, Some, None, Err, IfOk, IfErr, IfSome, OnOk};
ghost use Rattle.std.specs.Result.{result_ok};
ghost use Rattle.std.specs.Vec.{vec_capacity};
ghost use Rattle.sd_plan.specs.topo.Topologies.{network};
ghost use Rattle.sd_sched.specs.Events.{device_of};
ghost use Rattle.sd_sched.specs.declared.Event.TheVariants as events_of;
ghost use Rattle.sd_sched.specs.Spelled.{is_within};
ghost use Rattle.sd_history.specs.World.{Setting, is_up as is_up_seen, is_counted as is_counted_seen};
ghost use Rattle.sd_history.specs.Steps.{seen_of, parent_in, acts_in};
ghost use Rattle.sd_history.specs.Nodes.{NodeStep, steps_of};
ghost use Rattle.sd_history.specs.Refusals.{refusal as refusal_of};
ghost use Rattle.sd_history.specs.flights.Flights.{look_in};
ghost use Rattle.sd_world.specs.membership.Plans.{AreSound};
ghost use Rattle.sd_fleet.specs.Causes.{refusal_in};
ghost use Rattle.sd_fleet.specs.Doing.{act_in};
ghost use Rattle.sd_fleet.specs.Nodes.{node_at, Acts};
ghost use Rattle.sd_fleet.specs.Room.{ends_in, most_sent_of, most_sent_in};
ghost use Rattle.sd_fleet.specs.Sound.{IsSound};
ghost use Rattle.sd_fleet.specs.Stepping.{OnlyRoomGrew, outcome_resting};
ghost use Rattle.sd_fleet.specs.Staying.{StaysAt};
ghost use Rattle.sd_fleet.specs.Keeping.{outcome_keeping};
ghost use Rattle.sd_fleet.specs.Calling.{IsLimited};
ghost use Rattle.sd_fleet.specs.Bounds.{AreNodes, context_of};

use crate::nodes::{CallContext, ask_at, call_at, place, rests_at};
use crate::quick_calls::{emit_at, hear_at, keeps_at_messages, keeps_at_ticks};
use crate::{ApplyFault, Call, Fabric, Outcome, Reply, Sent};
use sd_device::Node;
use sd_device::msg::{Flight, TakeFault};
use sd_num::NoMemory;
use sd_plan::Plan;
use sd_plan::topo::Topology;
use sd_sched::Event;
use sd_world::world::World;
use std::alloc::Global;

/// All devices of a fabric, each a node of one kind, driven event by event.
///
/// An event costs what its own device and its messages cost, and over many events a little for each
/// message that was spent meanwhile. A stage goes over all devices, once for each plan.
#[derive(Drop)]
pub struct Fleet<N: Node> {
    fabric: Fabric,
    /// By device, since it was last made; one that failed stays until it is made again.
    nodes: Vec<Option<N>>,
    ghost are_nodes: { AreNodes N.Node fabric nodes.items },
}

/// What came of a receipt after which its device answers as before.
#[derive(Clone, Copy, Debug, PartialEq, Eq)]
pub struct Heard {
    /// The flight that was received.
    pub flight: Flight,
    pub sent: Sent,
}

/// A place without a node for each device.
#[tactic(auto, using(crate::proofs::Applying::replicate_more))]
fn no_nodes<N: Node>(alloc: Global, devices: u32) -> Result<Vec<Option<N>>, NoMemory>
    ensures { IfOk result (λ nodes. nodes.items ≡ replicate devices None) }
{
    let mut nodes = Vec::new(alloc);
    for _ in 0..devices {
        let Ok(()) = nodes.push(None) else {
            return Err(NoMemory);
        };
    }
    Ok(nodes)
}

/// The context of an event.
fn context_at(fabric: &Fabric, event: &Event) -> CallContext
    requires { IfSome (device_of event.now) (λ d. d < length fabric.now.net.devices) }
    ensures context { result ≡ context_of fabric.now event.now }
    ensures sound { IsSound fabric.now }
{
    let world = fabric.world();
    CallContext {
        given: fabric.given(event),
        events: world.events(),
        reading: match event.device() {
            Some(d) => world.reading(d),
            None => 0,
        },
    }
}

/// The context of a call of a device.
#[inline(always)]
fn context_of_call(fabric: &Fabric, d: u32) -> CallContext
    requires { d < length fabric.now.net.devices }
    ensures context { result ≡ context_of fabric.now (events_of.Tick 0 d 0) }
    ensures sound { IsSound fabric.now }
{
    let world = fabric.world();
    CallContext {
        given: fabric.given_to(d),
        events: world.events(),
        reading: world.reading(d),
    }
}

/// Makes, calls or asks the device that an event names, and tells what it replies.
fn address<N: Node>(fabric: &Fabric, nodes: &mut [Option<N>], event: &Event) -> Reply
    requires within { IsTrue (is_within event.now) }
    requires accepted { refusal_in fabric.now event.now ≡ None }
    requires nodes { AreNodes N.Node fabric.now nodes.old }
    ensures acts { Acts N.Node nodes.old (act_in fabric.now event.now)
        (context_of fabric.now event.now) result nodes.new }
    ensures sound { IsSound fabric.now }
{
    let context = context_at(fabric, event);
    match *event {
        Event::Start {
            device,
            counter,
            clock,
            eps,
            ..
        } => {
            let duty = fabric.duty(device);
            place(nodes, device, N::start(*duty, counter, clock, eps))
        }
        Event::Join {
            device,
            counter,
            clock,
            eps,
            ..
        } => {
            let rates = fabric.rates(device);
            place(nodes, device, N::join(rates, counter, clock, eps))
        }
        Event::Tick {
            device,
            counter,
            ..
        } => call_at(nodes, device, &Call::Tick { counter }, &context),
        Event::Recv {
            device,
            counter,
            message,
            ..
        } => {
            let Ok(flight) = fabric.flight(message) else {
                return Reply::nothing();
            };
            let call = Call::Receive {
                link: flight.link,
                message: &flight.message,
                counter,
            };
            call_at(nodes, device, &call, &context)
        }
        Event::Fix {
            device,
            counter,
            clock,
            eps,
            ..
        } => {
            let call = Call::Fix {
                counter,
                clock,
                eps,
            };
            call_at(nodes, device, &call, &context)
        }
        Event::Give { device, .. } => {
            let duty = fabric.staged_duty(device);
            call_at(nodes, device, &Call::Give { duty }, &context)
        }
        Event::Commit {
            device,
            counter,
            ..
        } => call_at(nodes, device, &Call::Commit { counter }, &context),
        Event::Seal { device, .. } => call_at(nodes, device, &Call::Seal, &context),
        Event::Ask {
            device,
            counter,
            ..
        } => ask_at(nodes, device, counter, &context),
        _ => Reply::nothing(),
    }
}

impl<N: Node> Fleet<N> {
    ghost use Rattle.sd_fleet.specs.Standing.{StandsFor, IsPrepared, IsAccepted, HasHappened, IsFault};

    /// A fleet before any event, with the first plan in force.
    pub fn new(alloc: Global, topo: &Topology, plans: &[Plan]) -> Result<Fleet<N>, NoMemory>
        requires some { 1 ≤ length plans.now }
        requires count { length plans.now < 2 ^ 32 }
        requires sound { AreSound (network topo.now) plans.now }
        ensures stands { IfOk result (λ fleet. (setting : Setting)
            → setting.net ≡ network topo.now → setting.plans ≡ plans.now
            → StandsFor N.Node fleet setting []) }
    {
        let fabric = Fabric::new(alloc, topo, plans)?;
        let nodes = no_nodes(alloc, fabric.devices())?;
        Ok(Fleet { fabric, nodes })
    }

    /// How many devices there are.
    pub fn devices(&self) -> u32
        ensures { result ≡ length self.now.fabric.net.devices }
    {
        self.fabric.devices()
    }

    /// How many links there are.
    pub fn links(&self) -> u32
        ensures { result ≡ length self.now.fabric.net.links }
    {
        self.fabric.links()
    }

    /// The world of its devices and links.
    pub fn world(&self) -> &World
        ensures world { result.now ≡ self.now.fabric.membership.world }
        ensures sound { IsSound self.now.fabric }
    {
        self.fabric.world()
    }

    /// The node of a device, since it was last made.
    pub fn node(&self, d: u32) -> Option<&N>
        requires { d < length self.now.fabric.net.devices }
        ensures { option_map (λ n. n.now) result ≡ node_at self.now.nodes.items d }
    {
        match &self.nodes[d as usize] {
            Some(node) => Some(node),
            None => None,
        }
    }

    /// The first cause for which an event is refused, if there is one. It is never `Memory`.
    pub fn refusal(&self, event: &Event) -> Option<ApplyFault>
        ensures kept { result ≡ refusal_in self.now.fabric event.now }
        ensures exact { (setting : Setting) (run : List (NodeStep N))
            → StandsFor N.Node self.now setting run
            → result ≡ refusal_of setting (steps_of run) event.now }
    {
        self.fabric.refusal(event)
    }

    /// How many messages the event sends at most: for a `tick` or a `recv` the ends below the named
    /// device in the plan in force and in the staged one together.
    pub fn most_sent(&self, event: &Event) -> usize
        ensures kept { result ≡ most_sent_in self.now.fabric event.now }
        ensures exact { (setting : Setting) (run : List (NodeStep N))
            → StandsFor N.Node self.now setting run
            → result ≡ most_sent_of setting (steps_of run) event.now }
    {
        self.fabric.most_sent(event)
    }

    /// An event happens. `Memory` is answered for a `tick` or a `recv` alone.
    pub fn apply(&mut self, alloc: Global, event: &Event) -> Result<Outcome, ApplyFault>
        requires within { IsTrue (is_within event.now) }
        // where `refusal` tells a fault, it is this one
        ensures same { IfSome (refusal_in self.old.fabric event.now) (λ fault. result ≡ Err fault) }
        ensures accepted { IfOk result (λ outcome. (setting : Setting) (run : List (NodeStep N))
            → StandsFor N.Node self.old setting run
            → IsAccepted N.Node self.new setting run event.now outcome) }
        ensures limited { IfOk result
            (λ outcome. IfSome outcome.report (λ told. IsLimited told.1)) }
        ensures few { IfOk result
            (λ outcome. outcome.sent ≤ most_sent_in self.old.fabric event.now) }
        ensures refused { IfErr result (λ fault. (setting : Setting) (run : List (NodeStep N))
            → StandsFor N.Node self.old setting run
            → StandsFor N.Node self.new setting run
            × IsFault fault setting (steps_of run) event.now) }
    {
        match self.prepare(alloc, event) {
            Ok(_) => {
                let mut outcome = Outcome::nothing();
                self.happen(event, &mut outcome);
                Ok(outcome)
            }
            Err(fault) => Err(fault),
        }
    }

    /// Makes the room that an event needs and nothing else, and answers how many messages the event
    /// sends at most; or why it does not happen. `Memory` is answered for a `tick` or a `recv` alone.
    pub fn prepare(&mut self, alloc: Global, event: &Event) -> Result<usize, ApplyFault>
        // where `refusal` tells a fault, it is this one
        ensures same { IfSome (refusal_in self.old.fabric event.now) (λ fault. result ≡ Err fault) }
        ensures prepared { OnOk result (IsPrepared self.new.fabric event.now) }
        ensures most { IfOk result (λ most. most ≡ most_sent_in self.new.fabric event.now) }
        ensures fault { IfErr result (λ fault. (setting : Setting) (run : List (NodeStep N))
            → StandsFor N.Node self.old setting run
            → IsFault fault setting (steps_of run) event.now) }
        // nothing changed but room
        ensures others { OnlyRoomGrew self.old.fabric self.new.fabric }
        ensures stands { (setting : Setting) (run : List (NodeStep N))
            → StandsFor N.Node self.old setting run → StandsFor N.Node self.new setting run }
    {
        if let Some(fault) = self.fabric.refusal(event) {
            return Err(fault);
        }
        let most = self.fabric.most_sent(event);
        match self.fabric.ready(alloc, most) {
            Ok(()) => Ok(most),
            Err(_) => Err(ApplyFault::Memory),
        }
    }

    /// An event happens for which the fleet was prepared. What comes of it is written into an
    /// outcome that the caller lends.
    pub fn happen(&mut self, event: &Event, outcome: &mut Outcome)
        requires within { IsTrue (is_within event.now) }
        requires prepared { IsPrepared self.old.fabric event.now }
        ensures { HasHappened N.Node self.old self.new event.now outcome.new }
    {
        let reply = address(&self.fabric, &mut self.nodes, event);
        self.fabric.note(event, &reply, outcome);
    }

    /// Makes the room that a call of the device needs while no window is open, and nothing else. It
    /// answers how many messages the device sends at most.
    #[inline(always)]
    pub fn ready(&mut self, alloc: Global, d: u32) -> Result<usize, NoMemory>
        ensures room { OnOk result (ends_in self.new.fabric d ≤ self.new.fabric.book.room) }
        ensures most { IfOk result (λ most. most ≡ ends_in self.new.fabric d) }
        ensures stands { (setting : Setting) (run : List (NodeStep N))
            → StandsFor N.Node self.old setting run → StandsFor N.Node self.new setting run }
    {
        let most = self.fabric.ends_of(d);
        self.fabric.ready(alloc, most)?;
        Ok(most)
    }

    /// A tick at which the device rests happens, if it is one: the device sends nothing and stays as
    /// it is. It is for `apply` where it is another, is refused, or a window is open.
    // Nothing is written but the time.
    #[inline(always)]
    pub fn rest(&mut self, reference: u64, d: u32, counter: u64) -> bool
        requires within { IsTrue (is_within (events_of.Tick reference d counter)) }
        ensures accepted { IsTrue result → (setting : Setting) (run : List (NodeStep N))
            → StandsFor N.Node self.old setting run
            → IsAccepted N.Node self.new setting run (events_of.Tick reference d counter)
            (outcome_resting self.old.fabric d) }
        ensures stays { IsTrue result
            → StaysAt self.old.fabric.membership self.new.fabric.membership d }
        ensures same { result ≡ false → self.new ≡ self.old }
    {
        if !self.fabric.admits_tick(reference, d, counter) {
            return false;
        }
        if !rests_at(&self.nodes, d, counter) {
            return false;
        }
        self.fabric.rest(reference, d, counter);
        true
    }

    /// A tick happens, if its device says that it answers as before after any tick, as one that acts
    /// as root does: what it sends goes out. It is for `apply` where the device does not say so,
    /// where the tick is refused, or a window is open.
    // No answers and no outcome are written.
    #[inline(always)]
    pub fn emit(&mut self, reference: u64, d: u32, counter: u64) -> Option<Sent>
        requires within { IsTrue (is_within (events_of.Tick reference d counter)) }
        requires room { ends_in self.old.fabric d ≤ self.old.fabric.book.room }
        ensures accepted { IfSome result (λ sent. (setting : Setting) (run : List (NodeStep N))
            → StandsFor N.Node self.old setting run
            → IsAccepted N.Node self.new setting run (events_of.Tick reference d counter)
            (outcome_keeping self.old.fabric d None sent)) }
        ensures few { IfSome result (λ sent. sent.count ≤ ends_in self.old.fabric d) }
        ensures stays { IfSome result
            (λ sent. StaysAt self.old.fabric.membership self.new.fabric.membership d) }
        ensures same { result ≡ None → self.new ≡ self.old }
    {
        if !self.fabric.admits_tick(reference, d, counter) {
            return None;
        }
        if !keeps_at_ticks(&self.nodes, d) {
            return None;
        }
        let context = context_of_call(&self.fabric, d);
        let effect = emit_at(&mut self.nodes, d, counter, &context);
        let sent = self.fabric.tick(reference, d, counter, &effect);
        Some(sent)
    }

    /// A receipt happens, if its device says that it answers as before after any message, as one that
    /// was given nothing does: its flight is taken, and what the device sends goes out. It is for
    /// `apply` where the device does not say so, where the receipt is refused, or a window is open.
    // No answers and no outcome are written.
    #[inline(always)]
    pub fn hear(&mut self, reference: u64, d: u32, counter: u64, message: u64) -> Option<Heard>
        requires within { IsTrue (is_within (events_of.Recv reference d counter message)) }
        requires room { ends_in self.old.fabric d ≤ self.old.fabric.book.room }
        ensures accepted { IfSome result (λ heard. (setting : Setting) (run : List (NodeStep N))
            → StandsFor N.Node self.old setting run
            → IsAccepted N.Node self.new setting run
            (events_of.Recv reference d counter message)
            (outcome_keeping self.old.fabric d (Some heard.flight) heard.sent)) }
        ensures few { IfSome result (λ heard. heard.sent.count ≤ ends_in self.old.fabric d) }
        ensures stays { IfSome result
            (λ heard. StaysAt self.old.fabric.membership self.new.fabric.membership d) }
        ensures same { result ≡ None → self.new ≡ self.old }
    {
        if !self.fabric.admits_tick(reference, d, counter) {
            return None;
        }
        if !keeps_at_messages(&self.nodes, d) {
            return None;
        }
        if !self.fabric.is_on_time(reference, d, message) {
            return None;
        }
        let context = context_of_call(&self.fabric, d);
        let flight = self.fabric.receive(reference, d, message);
        let effect = hear_at(&mut self.nodes, d, counter, &flight, &context);
        let sent = self.fabric.tick(reference, d, counter, &effect);
        Some(Heard { flight, sent })
    }

    /// The flight of a number, or why there is none: `Unknown` or `Spent`.
    // A flight is large: inlined, it is not copied once more.
    #[inline(always)]
    pub fn flight(&self, number: u64) -> Result<Flight, TakeFault>
        ensures { (setting : Setting) (run : List (NodeStep N))
            → StandsFor N.Node self.now setting run → result ≡ look_in (steps_of run) number }
    {
        self.fabric.flight(number)
    }

    /// Adds the flight of a number to a list that has room, where it is on its way.
    // A flight is large: it is copied once.
    #[inline(always)]
    pub fn push_flight(&self, number: u64, list: &mut Vec<Flight>)
        requires { length list.old.items < vec_capacity list.old }
        ensures items { (setting : Setting) (run : List (NodeStep N))
            → StandsFor N.Node self.now setting run
            → list.new.items
            ≡ list.old.items ++ option_to_list (result_ok (look_in (steps_of run) number)) }
        ensures few { length list.new.items ≤ length list.old.items + 1 }
        ensures capacity { vec_capacity list.old ≤ vec_capacity list.new }
    {
        self.fabric.push_flight(number, list);
    }

    /// Whether the device is up: it was made, and has not failed since.
    pub fn is_up(&self, d: u32) -> bool
        requires { d < length self.now.fabric.net.devices }
        ensures { (setting : Setting) (run : List (NodeStep N))
            → StandsFor N.Node self.now setting run
            → result ≡ is_up_seen (seen_of (steps_of run)) d }
    {
        self.fabric.is_up(d)
    }

    /// Whether the device counts as live: it is up, and a member of the plan in force or joined in
    /// the open window.
    pub fn is_counted(&self, d: u32) -> bool
        requires { d < length self.now.fabric.net.devices }
        ensures { (setting : Setting) (run : List (NodeStep N))
            → StandsFor N.Node self.now setting run
            → result ≡ is_counted_seen setting (seen_of (steps_of run)) d }
    {
        self.fabric.is_counted(d)
    }

    /// The device that this one follows, where it is up.
    pub fn parent(&self, d: u32) -> Option<u32>
        requires { d < length self.now.fabric.net.devices }
        ensures { (setting : Setting) (run : List (NodeStep N))
            → StandsFor N.Node self.now setting run → result ≡ parent_in (steps_of run) d }
    {
        match self.fabric.answered(d) {
            Some(answered) => answered.parent,
            None => None,
        }
    }

    /// Whether the device is up and acts as root.
    pub fn acts(&self, d: u32) -> bool
        requires { d < length self.now.fabric.net.devices }
        ensures { (setting : Setting) (run : List (NodeStep N))
            → StandsFor N.Node self.now setting run → result ≡ acts_in (steps_of run) d }
    {
        match self.fabric.answered(d) {
            Some(answered) => answered.acts,
            None => false,
        }
    }
}
