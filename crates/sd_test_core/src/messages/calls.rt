//! Calls on a book, and their answers.

ghost use Rattle.std.specs.Prelude.{◌≡◌};

use sd_device::msg::{Flight, FlightBook, Message, Stamp, TakeFault};
use sd_num::NoMemory;
use sd_plan::topo::Thing;
use std::alloc::Global;

#[derive(Clone, Copy, Debug, PartialEq, Eq)]
pub enum Call {
    Send(Flight),
    Look { number: u64 },
    Take { number: u64, device: u32 },
    Lose { number: u64 },
    Sweep(Thing),
    Purge { reference: u64 },
}

#[derive(Clone, Copy, Debug, PartialEq, Eq)]
pub enum Answer {
    Sent(u64),
    Found(Flight),
    Lost,
    Failed(TakeFault),
    Done,
    /// There was no memory, no number left, or no such link or device.
    NotSent,
}

pub fn flight(link: u32, receiver: u32, last: u64, reaches: bool) -> Flight
    ensures link { result.link ≡ link }
    ensures receiver { result.receiver ≡ receiver }
{
    Flight {
        number: 77,
        link,
        sender: 9,
        receiver,
        sent_at: 3,
        due: 5,
        last,
        reaches,
        message: Message {
            epoch: 1,
            stamp: Stamp {
                term: 0,
                round: last,
            },
            clock: 4,
            eps: 2,
        },
    }
}

pub fn found(looked: Result<Flight, TakeFault>) -> Answer {
    match looked {
        Ok(flight) => Answer::Found(flight),
        Err(fault) => Answer::Failed(fault),
    }
}

pub fn lost(tried: Result<(), TakeFault>) -> Answer {
    match tried {
        Ok(()) => Answer::Lost,
        Err(fault) => Answer::Failed(fault),
    }
}

/// How many devices and links a book is for.
pub const DEVICES: u32 = 7;

pub const LINKS: u32 = 9;

/// A book that is sent only what it may be sent.
#[derive(Drop)]
pub struct Tried {
    book: FlightBook,
    sent: u64,
    ghost sent_is: { book.last ≡ sent },
    ghost devices: { book.size.devices ≡ 7 },
    ghost links: { book.size.links ≡ 9 },
}

impl Tried {
    pub fn new(alloc: Global) -> Result<Tried, NoMemory> {
        let book = FlightBook::new(alloc, DEVICES, LINKS)?;
        Ok(Tried { book, sent: 0 })
    }

    fn send(&mut self, alloc: Global, flight: Flight) -> Answer {
        if self.sent == u64::MAX || flight.link >= LINKS || flight.receiver >= DEVICES {
            return Answer::NotSent;
        }
        match self.book.ready(alloc, 1) {
            Ok(()) => {
                self.sent += 1;
                Answer::Sent(self.book.send(flight))
            }
            Err(_) => Answer::NotSent,
        }
    }

    pub fn call(&mut self, alloc: Global, call: Call) -> Answer {
        match call {
            Call::Send(flight) => self.send(alloc, flight),
            Call::Look { number } => found(self.book.look(number)),
            Call::Take { number, device } => found(self.book.take(number, device)),
            Call::Lose { number } => lost(self.book.lose(number)),
            Call::Sweep(thing) => {
                self.book.sweep(thing);
                Answer::Done
            }
            Call::Purge { reference } => {
                self.book.purge(reference);
                Answer::Done
            }
        }
    }
}
