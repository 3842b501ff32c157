//! One event tried, and the messages that it sends.
ghost use Rattle.std.specs.Prelude.{◌≡◌, ◌≤◌, ◌<◌, ◌^◌, ℕ, List, ◌∷◌, IsTrue, Ok, OnOk};
ghost use Rattle.sd_device.specs.declared.msg.Flight.{Flight};
ghost use Rattle.sd_sched.specs.Events.{reference_of};
ghost use Rattle.sd_sched.specs.Spelled.{is_within};
ghost use Rattle.sd_fleet.specs.Outcomes.{outcome_of};
ghost use Rattle.sd_history.specs.World.{Setting};
ghost use Rattle.sd_history.specs.Steps.{Step, flight_count};
ghost use Rattle.sd_history.specs.flights.Flights.{look_in};
ghost use Rattle.sd_gen.specs.Drafts.{Draft, each, with_message, try as try_in};
ghost use Rattle.sd_gen.specs.Posting.{posted};

use crate::arrivals::Arrival;
use crate::driven::Driven;
use crate::driver::Driver;
use rand_core::utils::NextWord;
use sd_fleet::Outcome;
use sd_num::NoMemory;
use sd_sched::Event;
use std::alloc::Global;

impl<D: Driven> Driver<D> {
    ghost use Rattle.sd_gen.specs.Standing.{StandsTo, StandsFor, Becomes};

    /// Offers an event. One that is refused is left out.
    pub fn try_event(&mut self, alloc: Global, event: &Event) -> Result<(), NoMemory>
        requires within { IsTrue (is_within event.now) }
        requires early { reference_of event.now ≤ 2 ^ 40 }
        ensures leads { OnOk result (self.new.leads.items ≡ self.old.leads.items) }
        ensures stands { OnOk result
            (Becomes D.Driven self.old self.new (λ setting. try_in setting event.now)) }
    {
        let mut outcome = Outcome::nothing();
        if !self.driven.offer(alloc, event, &mut outcome)? {
            return Ok(());
        }
        self.post(event.reference(), &outcome)
    }

    /// Draws a word for each message that an event sent and that reaches, in the order of their
    /// numbers.
    fn post(&mut self, reference: u64, outcome: &Outcome) -> Result<(), NoMemory>
        requires { reference ≤ 2 ^ 40 }
        ensures leads { OnOk result (self.new.leads.items ≡ self.old.leads.items) }
        ensures stands { OnOk result
            ((setting : Setting) (x : Draft) (s : Step) (earlier : List Step)
            → x.steps ≡ s ∷ earlier
            → outcome.now ≡ outcome_of s → reference ≡ reference_of s.seen.event
            → StandsTo D.Driven self.old setting x (flight_count earlier)
            → StandsFor D.Driven self.new setting (each with_message s.seen.sent x)) }
    {
        // the sum never reaches the greatest number: histories have fewer messages
        let end = outcome.first_sent.saturating_add(u64::from(outcome.sent));
        for number in outcome.first_sent..end {
            self.post_one(reference, number)?;
        }
        Ok(())
    }

    /// Draws a word for the message of a number, if it reaches.
    fn post_one(&mut self, reference: u64, number: u64) -> Result<(), NoMemory>
        requires { reference ≤ 2 ^ 40 }
        ensures leads { OnOk result (self.new.leads.items ≡ self.old.leads.items) }
        ensures stands { OnOk result ((setting : Setting) (x : Draft) (top : ℕ) → top < number
            → ((f : Flight) → look_in x.steps number ≡ Ok f
            → (f.sent_at ≡ reference) × (f.number ≡ number))
            → StandsTo D.Driven self.old setting x top
            → StandsTo D.Driven self.new setting (posted (look_in x.steps number) x) number) }
    {
        let Ok(flight) = self.driven.fleet().flight(number) else {
            return Ok(());
        };
        let word = self.random.next_word();
        self.arrivals.add(Arrival {
            moment: reference + 400_000 + u64::from(word % 600_001),
            number,
            receiver: flight.receiver,
        })
    }
}
