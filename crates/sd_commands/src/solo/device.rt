//! What the device does at each event, and what it refuses.
ghost use Rattle.std.specs.Prelude.{◌≡◌, ◌≤◌, ◌^◌, List, [], ◌∷◌, IsTrue, None, Some, IfOk, IfErr, IfSome, OnOk, OnErr, length, count_by};
ghost use Rattle.std.specs.List.{list_any};

use crate::solo::{Solo, SoloFault};
use sd_num::Rates;
use sd_num::clock::{Estimate, Report};
use sd_sched::Event;

/// The rates of the one device.
const RATES: Rates = Rates {
    ppm: 200,
    grain: 1000,
};

/// This many events are accepted at most.
const MOST_EVENTS: u32 = 1 << 26;

impl Solo {
    ghost use Rattle.sd_sched.specs.declared.Event.{Event};
    ghost use Rattle.sd_commands.specs.solo.Histories.{refusal_in, refusal, report_by, is_known};
    ghost use Rattle.sd_commands.specs.solo.Registers.{StandsFor, situation_of};
    ghost use Rattle.sd_sched.specs.Events.{is_ask, is_end_event, reference_of};
    ghost use Rattle.sd_num.specs.clock.Estimates.{contains};
    ghost use Rattle.sd_commands.specs.solo.Promises.{start_holds, drift_holds};

    /// A device that was never started.
    pub fn new() -> Solo
        ensures { StandsFor result [] }
    {
        Solo {
            estimate: Estimate::set(0, 0, 0),
            started: false,
            ended: false,
            reference: 0,
            counter: 0,
            events: 0,
            reports: 0,
        }
    }

    /// How many events were accepted.
    pub fn events(&self) -> u32
        ensures count { (events : List Event) → StandsFor self.now events → result ≡ length events }
        ensures few { result ≤ 2 ^ 26 }
    {
        self.events
    }

    /// How many reports were made.
    pub fn reports(&self) -> u32
        ensures { (events : List Event) → StandsFor self.now events
            → result ≡ count_by is_ask events }
    {
        self.reports
    }

    /// Whether the schedule has ended.
    pub fn ended(&self) -> bool
        ensures { (events : List Event) → StandsFor self.now events
            → result ≡ list_any is_end_event events }
    {
        self.ended
    }

    /// Why the event is refused, if it is: of a usual one that is accepted one test tells.
    #[inline(always)]
    fn refusal(&self, event: &Event) -> Option<SoloFault>
        ensures { result ≡ refusal_in (situation_of self.now) event.now }
    {
        if self.is_calm(event) {
            None
        } else {
            self.first_cause(event)
        }
    }

    /// Whether the event is a fix or an ask, and no cause to refuse it holds.
    #[inline(always)]
    #[tactic(auto, unfolding(crate::specs::solo::Histories::refusal_in))]
    fn is_calm(&self, event: &Event) -> bool
        ensures { IsTrue result → refusal_in (situation_of self.now) event.now ≡ None }
    {
        match *event {
            Event::Fix {
                reference,
                device,
                counter,
                ..
            }
            | Event::Ask {
                reference,
                device,
                counter,
            } => {
                device == 0
                    && self.reference <= reference
                    && self.counter <= counter
                    && self.started
                    && !self.ended
                    && self.events < MOST_EVENTS
            }
            _ => false,
        }
    }

    /// The first cause to refuse the event, if there is one.
    #[inline(never)]
    #[tactic(auto, unfolding(crate::specs::solo::Histories::refusal_in))]
    fn first_cause(&self, event: &Event) -> Option<SoloFault>
        ensures { result ≡ refusal_in (situation_of self.now) event.now }
    {
        let starts = matches!(event, Event::Start { .. });
        let device = event.device();
        if matches!(device, Some(device) if device != 0) {
            return Some(SoloFault::UnknownDevice);
        }
        if event.reference() < self.reference {
            return Some(SoloFault::TimeFalls);
        }
        if !starts && matches!(event.counter(), Some(counter) if counter < self.counter) {
            return Some(SoloFault::CounterFalls);
        }
        if !starts && device.is_some() && !self.started {
            return Some(SoloFault::NotStarted);
        }
        if starts && self.started {
            return Some(SoloFault::StartedTwice);
        }
        if self.ended {
            return Some(SoloFault::AfterEnd);
        }
        if self.events >= MOST_EVENTS {
            return Some(SoloFault::TooManyEvents);
        }
        None
    }

    /// Takes the next event, and answers the report of an ask.
    #[tactic(auto, using(crate::proofs::solo::Accepted::not_too_many, crate::proofs::solo::Accepted::counter_goes_on))]
    pub fn apply(&mut self, event: &Event) -> Result<Option<Report>, SoloFault>
        requires known { IsTrue (is_known event.now) }
        ensures accepted { IfOk result (λ report. (events : List Event) → StandsFor self.old events
            → report ≡ report_by events event.now) }
        // While the clock and the oscillator are honest, a report has its reference time inside.
        ensures contained { IfOk result (λ report. (events : List Event) → StandsFor self.old events
            → IsTrue (start_holds (event.now ∷ events)) → IsTrue (drift_holds (event.now ∷ events))
            → IfSome report (λ r. IsTrue (contains r (reference_of event.now)))) }
        ensures stands { OnOk result ((events : List Event) → StandsFor self.old events
            → StandsFor self.new (event.now ∷ events)) }
        ensures refused { IfErr result (λ fault. (events : List Event) → StandsFor self.old events
            → refusal events event.now ≡ Some fault) }
        ensures unchanged { OnErr result (self.new ≡ self.old) }
    {
        if let Some(fault) = self.refusal(event) {
            return Err(fault);
        }
        self.events += 1;
        self.reference = event.reference();
        match *event {
            Event::Start {
                counter,
                clock,
                eps,
                ..
            }
            | Event::Fix {
                counter,
                clock,
                eps,
                ..
            } => {
                // a fix that is accepted comes after the start
                self.started = true;
                self.counter = counter;
                self.estimate = Estimate::set(clock, eps, counter);
                Ok(None)
            }
            Event::Ask { counter, .. } => {
                self.counter = counter;
                self.reports += 1;
                Ok(Some(self.estimate.report(RATES, counter)))
            }
            Event::End { .. } => {
                self.ended = true;
                Ok(None)
            }
            _ => unreachable!(),
        }
    }
}
