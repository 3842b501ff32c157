//! Which of the flights that are kept are spent.
ghost use Rattle.std.specs.Prelude.{◌≡◌, ◌≤◌, ◌&&◌, ℕ, List, [], not, true, IfOk};
ghost use Rattle.sd_device.specs.msg.Books.{is_current, is_swept, is_within};

use crate::msg::Flight;
use crate::msg::marks::Marks;
use sd_num::NoMemory;
use sd_plan::topo::Thing;
use std::alloc::Global;

/// The flights that have ended, and those that were swept. A purge and a sweep note what they spend,
/// and look at no flight.
#[derive(Drop)]
pub(crate) struct Spent {
    /// A flight whose `last` is less than this reference has ended.
    pub reference: u64,
    /// The last flight that a sweep spent, for each link and for each receiver.
    links: Marks,
    receivers: Marks,
}

impl Spent {
    ghost use Rattle.sd_device.specs.msg.Spent.{is_left, size_of, AreKept};

    /// None is spent.
    pub fn new(alloc: Global, devices: u32, links: u32) -> Result<Spent, NoMemory>
        ensures kept { IfOk result (λ s. (last : ℕ) → AreKept last s []) }
        ensures devices { IfOk result (λ s. (size_of s).devices ≡ devices) }
        ensures links { IfOk result (λ s. (size_of s).links ≡ links) }
    {
        let links = Marks::new(alloc, links)?;
        let receivers = Marks::new(alloc, devices)?;
        Ok(Spent {
            reference: 0,
            links,
            receivers,
        })
    }

    /// Whether the flight is not spent.
    #[inline(always)]
    pub fn leaves(&self, flight: &Flight) -> bool
        ensures { result ≡ is_left self.now flight.now }
    {
        flight.reaches
            && self.reference <= flight.last
            && self.links.is_below(flight.link, flight.number)
            && self.receivers.is_below(flight.receiver, flight.number)
    }

    /// Spends the flights whose `last` is less than the reference.
    pub fn purge(&mut self, reference: u64)
        ensures left { (f : Flight)
            → is_left self.new f ≡ (is_left self.old f && is_current reference f) }
        ensures kept { (last : ℕ) (flights : List Flight) → AreKept last self.old flights
            → AreKept last self.new flights }
        ensures size { size_of self.new ≡ size_of self.old }
    {
        self.reference = self.reference.max(reference);
    }

    /// Makes the reference so early that a flight with this `last` has not ended. Those that had
    /// ended have to be gone before, or they come back.
    pub fn reopen(&mut self, last: u64)
        ensures left { (f : Flight) → is_left self.old f ≡ true → is_left self.new f ≡ true }
        ensures kept { (number : ℕ) (flights : List Flight) → AreKept number self.old flights
            → AreKept number self.new flights }
        ensures reference { self.new.reference ≤ last }
        ensures size { size_of self.new ≡ size_of self.old }
    {
        self.reference = self.reference.min(last);
    }

    /// Spends the flights over that link or to that device, of those with numbers up to the last.
    pub fn sweep(&mut self, thing: Thing, last: u64)
        ensures left { (f : Flight) → is_within (size_of self.old) f ≡ true → f.number ≤ last
            → is_left self.new f ≡ (is_left self.old f && not (is_swept thing f)) }
        ensures kept { (flights : List Flight) → AreKept last self.old flights
            → AreKept last self.new flights }
        ensures size { size_of self.new ≡ size_of self.old }
    {
        match thing {
            Thing::Device(d) => self.receivers.set(d, last),
            Thing::Link(l) => self.links.set(l, last),
        }
    }
}
