//! Which flights a failure interrupted: for each device and link, up to which number.
ghost use Rattle.std.specs.Prelude.{◌≡◌, ℕ, ◌&&◌, nat_eq, nat_lt, max, vec_len, slice_index, false, IfOk, if◌then◌else◌};
ghost use Rattle.sd_plan.specs.declared.topo.Thing.{Thing as AnyThing};
ghost use Rattle.sd_num.specs.Lists.{map_or};
ghost use Rattle.sd_plan.specs.domain.Things.{same_thing};
ghost use Rattle.sd_monitors.specs.loss.flights.Interrupted.{is_interrupted};

use crate::loss::flights::WaitingFlight;
use sd_num::NoMemory;
use sd_plan::topo::Thing;
use std::alloc::Global;

/// A failure interrupts the flights of its thing that were sent before it, and so those up to the
/// last number: one number for each thing tells of every flight, and no failure looks at any.
#[derive(Drop)]
pub struct Interruptions {
    /// For each device and link the last number that was sent before its latest failure, and 0
    /// where it has not failed.
    devices: Vec<u64>,
    links: Vec<u64>,
    /// The greatest number that was sent.
    last: u64,
}

impl Interruptions {
    ghost use Rattle.sd_monitors.specs.loss.flights.InterruptionsView.{mark_of, last_number, device_places, link_places, has_place, HasSamePlaces};

    /// Nothing was sent, and nothing has failed.
    pub fn new(alloc: Global, devices: u32, links: u32) -> Result<Interruptions, NoMemory>
        ensures devices { IfOk result (λ i. device_places i ≡ devices) }
        ensures links { IfOk result (λ i. link_places i ≡ links) }
        ensures marks { IfOk result (λ i. (x : AnyThing) → mark_of i x ≡ 0) }
        ensures last { IfOk result (λ i. last_number i ≡ 0) }
    {
        let devices = zeros(alloc, devices)?;
        let links = zeros(alloc, links)?;
        Ok(Interruptions {
            devices,
            links,
            last: 0,
        })
    }

    /// The thing fails, if there is one.
    #[inline(always)]
    pub fn fail(&mut self, failed: Option<Thing>)
        ensures marks { (x : AnyThing) → mark_of self.new x
            ≡ (if map_or failed false (λ f. same_thing x f && has_place self.old f)
            then last_number self.old else mark_of self.old x) }
        ensures last { last_number self.new ≡ last_number self.old }
        ensures places { HasSamePlaces self.old self.new }
    {
        let last = self.last;
        match failed {
            Some(Thing::Device(d)) => put(&mut self.devices, d, last),
            Some(Thing::Link(l)) => put(&mut self.links, l, last),
            None => {}
        }
    }

    /// A flight of this number is sent.
    pub fn send(&mut self, number: u64)
        ensures last { last_number self.new ≡ max (last_number self.old) number }
        ensures marks { (x : AnyThing) → mark_of self.new x ≡ mark_of self.old x }
        ensures places { HasSamePlaces self.old self.new }
    {
        self.last = self.last.max(number);
    }

    /// Whether a failure of its sender, its receiver or its link interrupted the flight.
    pub fn interrupted(&self, flight: &WaitingFlight) -> bool
        ensures { result ≡ is_interrupted (mark_of self.now) flight.now }
    {
        flight.number <= at(&self.devices, flight.sender)
            || flight.number <= at(&self.devices, flight.receiver)
            || flight.number <= at(&self.links, flight.link)
    }
}

/// This many zeros.
fn zeros(alloc: Global, count: u32) -> Result<Vec<u64>, NoMemory>
    ensures len { IfOk result (λ v. vec_len v ≡ count) }
    ensures zero { IfOk result (λ v. (i : ℕ) → slice_index v.items i ≡ 0) }
{
    match vec![in alloc; 0; count as usize] {
        Ok(numbers) => Ok(numbers),
        Err(_) => Err(NoMemory),
    }
}

/// The number at a place, 0 where there is no such place.
fn at(numbers: &Vec<u64>, place: u32) -> u64
    ensures { result ≡ slice_index numbers.now.items place }
{
    numbers.get(place as usize).copied().unwrap_or(0)
}

/// Puts a number at a place, where there is one.
fn put(numbers: &mut Vec<u64>, place: u32, number: u64)
    ensures numbers { (i : ℕ)
        → slice_index numbers.new.items i
        ≡ (if nat_eq place i && nat_lt place
        (vec_len numbers.old) then number else slice_index numbers.old.items i) }
    ensures len { vec_len numbers.new ≡ vec_len numbers.old }
{
    if let Some(at) = numbers.get_mut(place as usize) {
        *at = number;
    }
}
