//! A plain book that keeps all flights, each with a flag.

use super::calls::{Answer, Call, found, lost};
use sd_device::msg::{Flight, TakeFault};
use sd_plan::topo::Thing;
use std::alloc::Global;

#[derive(Clone, Copy, Debug)]
struct Flagged {
    flight: Flight,
    is_over: bool,
}

#[derive(Drop)]
pub struct AllFlights {
    flights: Vec<Flagged>,
}

fn is_over(flight: &Flight, thing: Thing) -> bool {
    thing == Thing::Link(flight.link) || thing == Thing::Device(flight.receiver)
}

impl AllFlights {
    pub fn new(alloc: Global) -> AllFlights {
        AllFlights {
            flights: Vec::new(alloc),
        }
    }

    pub fn count(&self) -> u64 {
        self.flights.len() as u64
    }

    /// The receiver of a flight that was sent, spent or not.
    pub fn receiver(&self, number: u64) -> u32 {
        match self
            .flights
            .iter()
            .find(|kept| kept.flight.number == number)
        {
            Some(kept) => kept.flight.receiver,
            None => 0,
        }
    }

    fn send(&mut self, flight: Flight) -> Answer {
        let number = self.count().saturating_add(1);
        let kept = Flagged {
            flight: Flight { number, ..flight },
            is_over: !flight.reaches,
        };
        match self.flights.push(kept) {
            Ok(()) => Answer::Sent(number),
            Err(_) => Answer::NotSent,
        }
    }

    fn look(&self, number: u64) -> Result<Flight, TakeFault> {
        match self
            .flights
            .iter()
            .find(|kept| kept.flight.number == number)
        {
            None => Err(TakeFault::Unknown),
            Some(kept) if kept.is_over => Err(TakeFault::Spent),
            Some(kept) => Ok(kept.flight),
        }
    }

    /// Ends the flight of a number.
    fn end(&mut self, number: u64) {
        for kept in self.flights.iter_mut() {
            if kept.flight.number == number {
                kept.is_over = true;
            }
        }
    }

    fn take(&mut self, number: u64, device: u32) -> Result<Flight, TakeFault> {
        let flight = self.look(number)?;
        if flight.receiver != device {
            return Err(TakeFault::WrongDevice);
        }
        self.end(number);
        Ok(flight)
    }

    fn lose(&mut self, number: u64) -> Result<(), TakeFault> {
        self.look(number)?;
        self.end(number);
        Ok(())
    }

    fn sweep(&mut self, thing: Thing) {
        for kept in self.flights.iter_mut() {
            if is_over(&kept.flight, thing) {
                kept.is_over = true;
            }
        }
    }

    fn purge(&mut self, reference: u64) {
        for kept in self.flights.iter_mut() {
            if kept.flight.last < reference {
                kept.is_over = true;
            }
        }
    }

    pub fn call(&mut self, call: Call) -> Answer {
        match call {
            Call::Send(flight) => self.send(flight),
            Call::Look { number } => found(self.look(number)),
            Call::Take { number, device } => found(self.take(number, device)),
            Call::Lose { number } => lost(self.lose(number)),
            Call::Sweep(thing) => {
                self.sweep(thing);
                Answer::Done
            }
            Call::Purge { reference } => {
                self.purge(reference);
                Answer::Done
            }
        }
    }
}
