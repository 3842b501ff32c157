//! The premise on failures.

use super::replay::PlainReplay;
use sd_plan::topo::Thing;
use sd_sched::Event;
use sd_test_fleet_kit::plain::failed_by;

fn lies_in(domain: &[Thing], thing: Option<Thing>) -> bool {
    match thing {
        Some(thing) => domain.contains(&thing),
        None => true,
    }
}

impl PlainReplay<'_> {
    /// A moment at which what failed since the latest closing, and fails now, lies in no one domain.
    pub(crate) fn is_against_domain(&self, event: &Event) -> bool {
        !self.has_listed(event) && !self.has_single_device(event) && !self.has_single_link(event)
    }

    /// How many events there are up to the latest closing.
    pub fn closed_at(&self) -> usize {
        let mut closed = 0;
        for step in &self.plain.steps {
            if step.closed {
                closed = step.place.saturating_add(1);
            }
        }
        closed
    }

    /// Whether a domain has all that failed since the latest closing and fails now.
    fn holds_all(&self, domain: &[Thing], event: &Event) -> bool {
        let closed = self.closed_at();
        for step in &self.plain.steps {
            if step.place >= closed && !lies_in(domain, failed_by(&step.event)) {
                return false;
            }
        }
        lies_in(domain, failed_by(event))
    }

    fn has_listed(&self, event: &Event) -> bool {
        for domain in &self.site.domains {
            if self.holds_all(domain.as_slice(), event) {
                return true;
            }
        }
        false
    }

    fn has_single_device(&self, event: &Event) -> bool {
        for d in 0..self.site.net.devices {
            if self.holds_all(&[Thing::Device(d)], event) {
                return true;
            }
        }
        false
    }

    fn has_single_link(&self, event: &Event) -> bool {
        for l in 0..self.site.net.links() {
            if self.holds_all(&[Thing::Link(l)], event) {
                return true;
            }
        }
        false
    }
}
