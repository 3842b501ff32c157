//! What a fabric keeps, and what it answers of the present.
ghost use Rattle.std.specs.Prelude.{◌≡◌, ◌≤◌, ◌<◌, ◌^◌, ℕ, List, [], length, IfOk, IfSome, IsTrue, Option, Some, None, ◌+◌, ◌++◌, option_map, option_and_then, option_to_list};
ghost use Rattle.std.specs.Result.{result_ok};
ghost use Rattle.std.specs.Vec.{vec_capacity};
ghost use Rattle.sd_plan.specs.topo.Topologies.{network};
ghost use Rattle.sd_plan.specs.topo.Network.{rates_of};
ghost use Rattle.sd_device.specs.msg.Books.{found};
ghost use Rattle.sd_sched.specs.Events.{device_of};
ghost use Rattle.sd_history.specs.World.{Setting};
ghost use Rattle.sd_history.specs.Steps.{Step};
ghost use Rattle.sd_history.specs.flights.Flights.{look_in};
ghost use Rattle.sd_world.specs.world.Registers.{up_at, is_open};
ghost use Rattle.sd_world.specs.membership.Plans.{AreSound, row_numbered};
ghost use Rattle.sd_world.specs.membership.Memberships.{live_at, is_counted_at, is_in_force, is_in_staged, staged_number};
ghost use Rattle.sd_fleet.specs.Sound.{IsSound};
ghost use Rattle.sd_fleet.specs.FabricStanding.{Stands};
ghost use Rattle.sd_fleet.specs.Doing.{given_in};

use crate::AnswerSummary;
use sd_device::msg::{Flight, FlightBook, TakeFault};
use sd_num::{NoMemory, Rates};
use sd_plan::topo::Topology;
use sd_plan::{Duty, Plan};
use sd_sched::Event;
use sd_world::membership::Membership;
use sd_world::world::World;
use std::alloc::Global;
use std::marker::Model;

/// A fabric apart from its devices.
///
/// An event costs what its own device and its messages cost, and over many events a little for each
/// message that was spent meanwhile. A stage goes over all devices, once for each plan.
#[derive(Drop)]
pub struct Fabric {
    pub(crate) topology: Topology,
    pub(crate) membership: Membership,
    pub(crate) book: FlightBook,
}

impl Model for Fabric {
    ghost use Rattle.sd_fleet.specs.Registers.{Registers};

    ghost Value = { Registers };

    ghost use Rattle.sd_fleet.specs.FabricView.{registers_seen, IsFabric};

    ghost view = { registers_seen };

    ghost invariant = { IsFabric };
}

impl Fabric {
    /// A fabric before any event. The first plan is in force.
    pub fn new(alloc: Global, topo: &Topology, plans: &[Plan]) -> Result<Fabric, NoMemory>
        requires some { 1 ≤ length plans.now }
        requires count { length plans.now < 2 ^ 32 }
        requires sound { AreSound (network topo.now) plans.now }
        ensures sound { IfOk result IsSound }
        ensures stands { IfOk result (λ f. (setting : Setting)
            → setting.net ≡ network topo.now → setting.plans ≡ plans.now → Stands f setting []) }
    {
        let topology = topo.copy(alloc)?;
        let membership = Membership::new(alloc, topo, plans)?;
        let book = FlightBook::new(alloc, topo.devices(), topo.links())?;
        Ok(Fabric {
            topology,
            membership,
            book,
        })
    }

    /// How many devices there are.
    pub fn devices(&self) -> u32
        ensures count { result ≡ length self.now.net.devices }
        ensures sound { IsSound self.now }
    {
        self.topology.devices()
    }

    /// How many links there are.
    pub fn links(&self) -> u32
        ensures { result ≡ length self.now.net.links }
    {
        self.topology.links()
    }

    /// The world of its devices and links.
    pub fn world(&self) -> &World
        ensures world { result.now ≡ self.now.membership.world }
        ensures sound { IsSound self.now }
    {
        self.membership.world()
    }

    /// Whether the device is up: it was made, and has not failed since.
    pub fn is_up(&self, d: u32) -> bool
        requires { d < length self.now.net.devices }
        ensures { result ≡ up_at self.now.membership.world d }
    {
        self.membership.world().is_up(d)
    }

    /// What the device answers, where it is up.
    pub fn answered(&self, d: u32) -> Option<AnswerSummary>
        requires { d < length self.now.net.devices }
        ensures { result ≡ live_at self.now.membership d }
    {
        self.membership.answered(d)
    }

    /// Whether the device counts as live: it is up, and a member of the plan in force or joined in
    /// the open window.
    pub fn is_counted(&self, d: u32) -> bool
        requires { d < length self.now.net.devices }
        ensures { result ≡ is_counted_at self.now.membership d }
    {
        self.membership.is_counted(d)
    }

    /// What the plan in force tells a member.
    pub fn duty(&self, d: u32) -> &Duty
        requires { IsTrue (is_in_force self.now.membership d) }
        ensures { option_map (λ row. row.duty)
            (row_numbered self.now.membership.plans self.now.membership.world.epoch d)
            ≡ Some result.now }
    {
        self.membership.duty(self.membership.world().epoch(), d)
    }

    /// What the staged plan tells a member.
    pub fn staged_duty(&self, d: u32) -> &Duty
        requires { IsTrue (is_in_staged self.now.membership d) }
        ensures { option_map (λ row. row.duty)
            (row_numbered self.now.membership.plans (staged_number self.now.membership) d)
            ≡ Some result.now }
    {
        self.membership.duty(self.membership.world().epoch() + 1, d)
    }

    /// The rates of a device's own oscillator.
    pub fn rates(&self, d: u32) -> Rates
        requires { d < length self.now.net.devices }
        ensures { result ≡ rates_of self.now.net d }
    {
        self.topology.rates(d)
    }

    /// The number of the plan whose duty was given to the named device and is not taken up yet.
    pub fn given(&self, event: &Event) -> Option<u32>
        requires { IfSome (device_of event.now) (λ d. d < length self.now.net.devices) }
        ensures { result ≡ given_in self.now event.now }
    {
        match event.device() {
            Some(d) => self.given_to(d),
            None => None,
        }
    }

    /// The same of the device with a number.
    #[inline(always)]
    pub fn given_to(&self, d: u32) -> Option<u32>
        requires { d < length self.now.net.devices }
        ensures { result ≡ option_and_then (λ a. a.given) (live_at self.now.membership d) }
    {
        match self.membership.answered(d) {
            Some(answered) => answered.given,
            None => None,
        }
    }

    /// Whether a plan is staged.
    pub fn has_window(&self) -> bool
        ensures { result ≡ is_open self.now.membership.world.window }
    {
        self.membership.world().window().is_open()
    }

    /// Adds the flight of a number to a list that has room, where it is on its way.
    // A flight is large: it is copied once.
    #[inline(always)]
    pub fn push_flight(&self, number: u64, list: &mut Vec<Flight>)
        requires { length list.old.items < vec_capacity list.old }
        ensures items { (setting : Setting) (steps : List Step) → Stands self.now setting steps
            → list.new.items ≡ list.old.items ++ option_to_list (result_ok (look_in steps number)) }
        ensures few { length list.new.items ≤ length list.old.items + 1 }
        ensures capacity { vec_capacity list.old ≤ vec_capacity list.new }
    {
        if let Ok(flight) = self.book.find(number) {
            list.push_reserved(*flight);
        }
    }

    /// The flight of a number, or why there is none: `Unknown` or `Spent`.
    // A flight is large: inlined, it is not copied once more.
    #[inline(always)]
    pub fn flight(&self, number: u64) -> Result<Flight, TakeFault>
        ensures found { result ≡ found self.now.book.last self.now.book.flights number }
        ensures stands { (setting : Setting) (steps : List Step) → Stands self.now setting steps
            → result ≡ look_in steps number }
    {
        self.book.look(number)
    }
}
