//! Which messages are on their way: each is looked at once when it was sent, and kept by its ending
//! and its name.
ghost use Rattle.std.specs.Prelude.{◌≡◌, ◌≤◌, ◌<◌, ◌^◌, List, OnOk, IfNone, IfOk, IfSome};
ghost use Rattle.sd_sched.specs.declared.Event.{Event as AnyEvent};
ghost use Rattle.sd_history.specs.World.{Setting};
ghost use Rattle.sd_history.specs.Steps.{flight_count};
ghost use Rattle.sd_history.specs.Chronicle.{chronicle};
ghost use Rattle.sd_history.specs.flights.Flights.{look_in, says_unknown};
ghost use Rattle.sd_record.specs.Looks as looks;
ghost use Rattle.sd_record.specs.Losing as losing;
ghost use Rattle.sd_record.specs.Names.{flight_name};
ghost use Rattle.sd_record.specs.Naming as naming;
ghost use Rattle.sd_record.specs.Noting.{HasNoted};
ghost use Rattle.sd_record.specs.Standing.{HasSeenAll, KeepsCurrent, StandsFor};

use crate::Recorder;
use crate::endings::{Ending, NamedEnding};
use crate::logs::MessageName;
use crate::names::NamedMessage;
use sd_device::msg::{Flight, TakeFault};
use sd_num::NoMemory;

/// More messages than any schedule has.
const MOST: u64 = 1 << 60;

/// Whether no message has the number.
fn is_unknown(found: &Result<Flight, TakeFault>) -> bool
    ensures { result ≡ says_unknown found.now }
{
    matches!(found, Err(TakeFault::Unknown))
}

/// Whether what was found has the name that a log gives a message.
fn is_named(found: &Result<Flight, TakeFault>, name: &MessageName) -> bool
    ensures { result ≡ looks.is_named name.now found.now }
{
    match found {
        Ok(flight) => {
            flight.receiver == name.receiver
                && flight.link == name.link
                && flight.message.epoch == name.epoch
                && flight.message.stamp.term == name.term
                && flight.message.stamp.round == name.round
        }
        Err(_) => false,
    }
}

/// Whether what was found is on its way, and ends so.
fn has_ending(found: &Result<Flight, TakeFault>, ending: &Ending) -> bool
    ensures { result ≡ looks.has_ending ending.now found.now }
{
    match found {
        Ok(flight) => flight.last == ending.last,
        Err(_) => false,
    }
}

/// The name of a message.
fn name_of(flight: &Flight) -> MessageName
    ensures { result ≡ flight_name flight.now }
{
    MessageName {
        receiver: flight.receiver,
        link: flight.link,
        epoch: flight.message.epoch,
        term: flight.message.stamp.term,
        round: flight.message.stamp.round,
    }
}

impl Recorder {
    /// The number of the last message on its way that has the name, and 0 where none has.
    pub(crate) fn number_of(&mut self, name: &MessageName) -> Result<u64, NoMemory>
        ensures number { IfOk result (λ number. (setting : Setting) (events : List AnyEvent)
            → StandsFor self.old setting events
            → number ≡ naming.number_named name.now (chronicle setting events)) }
        ensures within { IfOk result (λ number. number ≤ 2 ^ 60) }
        ensures stands { OnOk result ((setting : Setting) (events : List AnyEvent)
            → StandsFor self.old setting events → StandsFor self.new setting events) }
        ensures text { self.new.text ≡ self.old.text }
    {
        self.look_on()?;
        Ok(self.last_named(name))
    }

    /// The same, where each message was looked at. Names of messages that are on their way no more
    /// are dropped.
    fn last_named(&mut self, name: &MessageName) -> u64
        ensures number { (setting : Setting) (events : List AnyEvent)
            → StandsFor self.old setting events → HasSeenAll self.old setting events
            → result ≡ naming.number_named name.now (chronicle setting events) }
        ensures within { result ≤ 2 ^ 60 }
        ensures stands { (setting : Setting) (events : List AnyEvent)
            → StandsFor self.old setting events → StandsFor self.new setting events }
        ensures text { self.new.text ≡ self.old.text }
    {
        'names: while let Some(number) = self.names.last(name) {
            if is_named(&self.on_its_way(number), name) {
                return number;
            }
            self.names.remove(NamedMessage {
                name: *name,
                number,
            });
        }
        0
    }

    /// The message of a number, if it is on its way.
    // A flight is large: inlined, it is not copied once more.
    #[inline(always)]
    fn on_its_way(&self, number: u64) -> Result<Flight, TakeFault>
        ensures flight { (setting : Setting) (events : List AnyEvent)
            → StandsFor self.now setting events
            → result ≡ look_in (chronicle setting events) number }
        ensures within { OnOk result (number ≤ 2 ^ 60) }
    {
        // No message has a greater number: said for the prover.
        if number > MOST {
            return Err(TakeFault::Unknown);
        }
        self.fleet.flight(number)
    }

    /// The ending of the message that an event at the reference finds to be past, if there is one:
    /// of several the soonest.
    pub(crate) fn next_lost(&mut self, reference: u64) -> Result<Option<Ending>, NoMemory>
        ensures lost { IfOk result (λ lost. (setting : Setting) (events : List AnyEvent)
            → StandsFor self.old setting events
            → lost ≡ losing.next_lost reference (chronicle setting events)) }
        ensures past { IfOk result (λ lost. IfSome lost (λ ending. ending.last < reference)) }
        ensures within { IfOk result (λ lost. IfSome lost (λ ending. ending.number ≤ 2 ^ 60)) }
        // What is kept by name is bounded by what can be received.
        ensures current { IfOk result (λ lost. (setting : Setting) (events : List AnyEvent)
            → StandsFor self.old setting events
            → IfNone lost (KeepsCurrent self.new reference (chronicle setting events))) }
        ensures stands { OnOk result ((setting : Setting) (events : List AnyEvent)
            → StandsFor self.old setting events → StandsFor self.new setting events) }
        ensures text { self.new.text ≡ self.old.text }
    {
        self.look_on()?;
        Ok(self.soonest_before(reference))
    }

    /// The same, where each message was looked at. Endings and names of messages that are on their
    /// way no more are dropped.
    fn soonest_before(&mut self, reference: u64) -> Option<Ending>
        ensures lost { (setting : Setting) (events : List AnyEvent)
            → StandsFor self.old setting events → HasSeenAll self.old setting events
            → result ≡ losing.next_lost reference (chronicle setting events) }
        ensures past { IfSome result (λ ending. ending.last < reference) }
        ensures within { IfSome result (λ ending. ending.number ≤ 2 ^ 60) }
        ensures current { (setting : Setting) (events : List AnyEvent)
            → StandsFor self.old setting events
            → IfNone result (KeepsCurrent self.new reference (chronicle setting events)) }
        ensures stands { (setting : Setting) (events : List AnyEvent)
            → StandsFor self.old setting events → StandsFor self.new setting events }
        ensures text { self.new.text ≡ self.old.text }
    {
        'endings: while let Some(first) = self.endings.first_before(reference) {
            if has_ending(&self.on_its_way(first.ending.number), &first.ending) {
                return Some(first.ending);
            }
            self.endings.drop_first();
            self.names.remove(NamedMessage {
                name: first.name,
                number: first.ending.number,
            });
        }
        None
    }

    /// Looks at the messages that were sent since the last look.
    fn look_on(&mut self) -> Result<(), NoMemory>
        ensures stands { OnOk result ((setting : Setting) (events : List AnyEvent)
            → StandsFor self.old setting events → StandsFor self.new setting events) }
        ensures all { OnOk result ((setting : Setting) (events : List AnyEvent)
            → StandsFor self.old setting events → HasSeenAll self.new setting events) }
        ensures text { self.new.text ≡ self.old.text }
    {
        for looked in self.looked..MOST {
            let found = self.on_its_way(looked + 1);
            if is_unknown(&found) {
                return Ok(());
            }
            self.look_at(looked + 1, &found)?;
        }
        Ok(())
    }

    /// Notes what was found under the next number.
    fn look_at(&mut self, number: u64, found: &Result<Flight, TakeFault>) -> Result<(), NoMemory>
        ensures noted { OnOk result (HasNoted number found.now self.old self.new) }
        ensures text { self.new.text ≡ self.old.text }
    {
        self.looked = number;
        let Ok(flight) = found else {
            return Ok(());
        };
        let name = name_of(flight);
        let ending = Ending {
            last: flight.last,
            number: flight.number,
        };
        self.endings.add(NamedEnding { ending, name })?;
        self.names.add(NamedMessage {
            name,
            number: flight.number,
        })
    }
}
