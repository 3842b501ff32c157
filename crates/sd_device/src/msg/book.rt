//! The book of the flights that are on their way.
ghost use Rattle.std.specs.Prelude.{◌≡◌, ◌≤◌, ◌<◌, ◌+◌, ◌-◌, ◌*◌, ◌^◌, [], filter, length, max, not, is_ok, Ok, Err, IsOk, IfOk, IfErr, OnOk, if◌then◌else◌};
ghost use Rattle.sd_device.specs.msg.Books.{AreGiven, found, for_device, dismissed, without, with_sent, is_swept, is_current};

use crate::msg::flights::{
    drop_first, drop_spent, flight_for, flight_given, flight_left, reopen, room, spend,
};
use crate::msg::spent::Spent;
use crate::msg::{Flight, TakeFault};
use sd_num::NoMemory;
use sd_plan::topo::Thing;
use std::alloc::Global;
use std::collections::VecDeque;
use std::marker::Model;

/// The flights that are on their way, by ascending number. Each takes the next number when it is
/// sent, from 1 on; a flight is spent when it is taken, lost, swept or purged, or at once where it
/// does not reach. Only `new` and `ready` take memory.
///
/// A flight that is taken or lost is spent in its place, and a sweep and a purge only note what they
/// spend. Where there is too little room, `ready` gives up the places in front of the first flight
/// that is left, and those of all that are spent if half of the places are not free then. It takes
/// memory for as many again as are left if that is too little. So on average each place is gone over
/// a limited number of times, and `send` goes over them only for a flight that has ended before.
/// There is memory for at most twice as many flights as were ever left at once, and as many as room
/// was asked for.
///
/// A number that is given has the place after the one before, also that of a flight which does not
/// reach. So its place is told by how many were given after it. Only a flight that was left when all
/// that are spent gave up their places may have to be searched, by halving.
#[derive(Drop)]
pub struct FlightBook {
    /// All that are not spent, and others.
    flights: VecDeque<Flight>,
    /// The last number given.
    last: u64,
    spent: Spent,
}

impl Model for FlightBook {
    ghost use Rattle.sd_device.specs.msg.Books.{Book};

    ghost Value = { Book };

    ghost use Rattle.sd_device.specs.msg.BookView.{book_seen, IsBook};

    ghost view = { book_seen };

    ghost invariant = { IsBook };
}

impl FlightBook {
    /// A book with no flights, of which no number was given, for this many devices and links.
    pub fn new(alloc: Global, devices: u32, links: u32) -> Result<FlightBook, NoMemory>
        ensures given { IfOk result AreGiven }
        ensures flights { IfOk result (λ b. b.flights ≡ []) }
        ensures last { IfOk result (λ b. b.last ≡ 0) }
        ensures devices { IfOk result (λ b. b.size.devices ≡ devices) }
        ensures links { IfOk result (λ b. b.size.links ≡ links) }
        ensures places { IfOk result (λ b. b.places ≡ 0) }
    {
        let spent = Spent::new(alloc, devices, links)?;
        match VecDeque::with_capacity(alloc, 0) {
            Ok(flights) => Ok(FlightBook {
                flights,
                last: 0,
                spent,
            }),
            Err(_) => Err(NoMemory),
        }
    }

    /// Makes room for some more flights. Where it has too little, half of its places are free then.
    pub fn ready(&mut self, alloc: Global, count: usize) -> Result<(), NoMemory>
        ensures given { AreGiven self.new }
        ensures room { OnOk result (count ≤ self.new.room) }
        ensures grows { self.old.room ≤ self.new.room }
        ensures flights { self.new.flights ≡ self.old.flights }
        ensures last { self.new.last ≡ self.old.last }
        ensures size { self.new.size ≡ self.old.size }
        ensures places { self.new.places
            ≤ max self.old.places (2 * length self.new.flights + count) }
        ensures free { self.old.room < count
            → OnOk result (self.new.places ≤ 2 * self.new.room) }
    {
        if count <= room(&self.flights) {
            return Ok(());
        }
        drop_first(&mut self.flights, &self.spent);
        if count.saturating_add(self.flights.len()) <= room(&self.flights) {
            return Ok(());
        }
        drop_spent(&mut self.flights, &self.spent);
        // for as many again as are left, so that they are gone over only now and then
        let more = count.saturating_add(self.flights.len());
        match self.flights.reserve_exact(more) {
            Ok(()) => Ok(()),
            Err(_) => Err(NoMemory),
        }
    }

    /// Gives a flight the next number, in place of its own, and keeps it where it reaches.
    #[inline(always)]
    pub fn send(&mut self, flight: Flight) -> u64
        requires room { 1 ≤ self.old.room }
        requires numbers { self.old.last < 2 ^ 64 - 1 }
        requires link { flight.link < self.old.size.links }
        requires receiver { flight.receiver < self.old.size.devices }
        ensures given { AreGiven self.new }
        ensures number { result ≡ self.old.last + 1 }
        ensures flights { self.new.flights
            ≡ with_sent self.old.flights (record flight { number = result }) }
        ensures last { self.new.last ≡ result }
        ensures size { self.new.size ≡ self.old.size }
        ensures places { self.new.places ≡ self.old.places }
        ensures room { self.old.room ≤ self.new.room + 1 }
    {
        reopen(&mut self.flights, &mut self.spent, flight.last);
        let number = self.last + 1;
        self.last = number;
        self.flights.push_back_reserved(Flight { number, ..flight });
        number
    }

    /// The flight of a number, lent, or why there is none: `Unknown` or `Spent`.
    #[inline(always)]
    pub fn find(&self, number: u64) -> Result<&Flight, TakeFault>
        ensures given { AreGiven self.now }
        ensures flight { IfOk result (λ f. found self.now.last self.now.flights number ≡ Ok f.now) }
        ensures fault { IfErr result (λ e. found self.now.last self.now.flights number ≡ Err e) }
    {
        let (_, flight) = flight_left(&self.flights, self.last, &self.spent, number)?;
        Ok(flight)
    }

    /// The flight of a number, or why there is none: `Unknown` or `Spent`.
    #[inline(always)]
    pub fn look(&self, number: u64) -> Result<Flight, TakeFault>
        ensures given { AreGiven self.now }
        ensures flight { result ≡ found self.now.last self.now.flights number }
    {
        let flight = self.find(number)?;
        Ok(*flight)
    }

    /// The flight of a number, which the device receives: it is spent then. A fault changes
    /// nothing.
    pub fn take(&mut self, number: u64, device: u32) -> Result<Flight, TakeFault>
        ensures given { AreGiven self.new }
        ensures flight { result ≡ for_device device (found self.old.last self.old.flights number) }
        ensures flights { self.new.flights
            ≡ (if is_ok result then without number self.old.flights else self.old.flights) }
        ensures last { self.new.last ≡ self.old.last }
        ensures size { self.new.size ≡ self.old.size }
        ensures places { self.new.places ≡ self.old.places }
        ensures room { self.old.room ≤ self.new.room }
    {
        let (place, flight) = flight_for(&self.flights, self.last, &self.spent, number, device)?;
        let taken = *flight;
        spend(&mut self.flights, self.last, &self.spent, place);
        Ok(taken)
    }

    /// The flight of a number that is on its way: it is spent then.
    // A caller that has found it is told it without a second look at what is spent.
    #[inline(always)]
    pub fn take_found(&mut self, number: u64) -> Flight
        requires there { IsOk (found self.old.last self.old.flights number) }
        ensures given { AreGiven self.new }
        ensures flight { found self.old.last self.old.flights number ≡ Ok result }
        ensures flights { self.new.flights ≡ without number self.old.flights }
        ensures last { self.new.last ≡ self.old.last }
        ensures size { self.new.size ≡ self.old.size }
        ensures places { self.new.places ≡ self.old.places }
        ensures room { self.old.room ≤ self.new.room }
    {
        match flight_given(&self.flights, self.last, number) {
            Ok((place, flight)) => {
                let taken = *flight;
                spend(&mut self.flights, self.last, &self.spent, place);
                taken
            }
            Err(_) => unreachable!(),
        }
    }

    /// Loses the flight of a number: it is spent then. A fault changes nothing.
    pub fn lose(&mut self, number: u64) -> Result<(), TakeFault>
        ensures given { AreGiven self.new }
        ensures flight { result ≡ dismissed (found self.old.last self.old.flights number) }
        ensures flights { self.new.flights
            ≡ (if is_ok result then without number self.old.flights else self.old.flights) }
        ensures last { self.new.last ≡ self.old.last }
        ensures size { self.new.size ≡ self.old.size }
        ensures places { self.new.places ≡ self.old.places }
        ensures room { self.old.room ≤ self.new.room }
    {
        let (place, _) = flight_left(&self.flights, self.last, &self.spent, number)?;
        spend(&mut self.flights, self.last, &self.spent, place);
        Ok(())
    }

    /// Spends each flight over that link or to that device.
    pub fn sweep(&mut self, thing: Thing)
        ensures given { AreGiven self.new }
        ensures flights { self.new.flights ≡ filter (λ f. not (is_swept thing f)) self.old.flights }
        ensures last { self.new.last ≡ self.old.last }
        ensures size { self.new.size ≡ self.old.size }
        ensures places { self.new.places ≡ self.old.places }
        ensures room { self.old.room ≤ self.new.room }
    {
        self.spent.sweep(thing, self.last);
    }

    /// Spends each flight whose `last` is less than the reference.
    pub fn purge(&mut self, reference: u64)
        ensures given { AreGiven self.new }
        ensures flights { self.new.flights ≡ filter (is_current reference) self.old.flights }
        ensures last { self.new.last ≡ self.old.last }
        ensures size { self.new.size ≡ self.old.size }
        ensures places { self.new.places ≡ self.old.places }
        ensures room { self.old.room ≤ self.new.room }
    {
        self.spent.purge(reference);
    }
}
