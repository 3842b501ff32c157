//! The replay: what is found of one event after the other.

use super::lines::Found;
use super::premises::{PREMISES, Premise};
use super::site::Site;
use sd_num::clock::Report;
use sd_sched::Event;
use sd_test_fleet_kit::plain::{NodeKind, Plain};
use std::alloc::{AllocError, Global};

/// A history over a site, with the premises that events were against so far.
#[derive(Drop)]
pub struct PlainReplay<'a> {
    pub site: &'a Site<'a>,
    pub plain: Plain<'a>,
    /// The premises that events were against so far, with repetitions.
    pub broken: Vec<Premise>,
}

/// What is now, where nothing of its kind was before.
fn newly<T: Copy>(before: Option<T>, now: Option<T>) -> Option<T> {
    if before.is_some() { None } else { now }
}

impl PlainReplay<'_> {
    /// Nodes of a kind before any event.
    pub fn of_kind<'a>(alloc: Global, site: &'a Site<'a>, kind: NodeKind) -> PlainReplay<'a> {
        PlainReplay {
            site,
            plain: Plain::of_kind(alloc, &site.net, kind),
            broken: Vec::new(alloc),
        }
    }

    /// An event happens that is not refused.
    pub fn happen(&mut self, event: Event) -> Result<Found, AllocError> {
        let looped = self.first_on_loop()?;
        let roots = self.two_roots();
        let mut against = self.against(&event)?;
        self.plain.happen(event)?;
        if self.is_against_loss() {
            against.push(Premise::Loss)?;
        }
        Ok(Found {
            line: self.plain.steps.len() as u64,
            reference: event.reference(),
            broken: self.break_with(against.as_slice())?,
            looped: newly(looped, self.first_on_loop()?),
            roots: newly(roots, self.two_roots()),
            report: self.report_at(&event),
        })
    }

    /// The premises but that on losses that an event is against.
    fn against(&self, event: &Event) -> Result<Vec<Premise>, AllocError> {
        let mut against = Vec::new(self.plain.alloc);
        for premise in PREMISES {
            if self.is_against(premise, event)? {
                against.push(premise)?;
            }
        }
        Ok(against)
    }

    /// The premises that break with an event that is against some, in their order.
    fn break_with(&mut self, against: &[Premise]) -> Result<Vec<Premise>, AllocError> {
        let mut breaking = Vec::new(self.plain.alloc);
        for premise in PREMISES {
            if against.contains(&premise) && !self.broken.contains(&premise) {
                breaking.push(premise)?;
            }
        }
        self.broken.extend_from_slice(against)?;
        Ok(breaking)
    }

    /// The report of an ask, which changes nothing.
    fn report_at(&self, event: &Event) -> Option<(u32, Report)> {
        match *event {
            Event::Ask {
                device,
                counter,
                ..
            } => Some((device, self.plain.report(device, counter))),
            _ => None,
        }
    }
}
