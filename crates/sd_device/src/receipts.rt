//! What a message makes of a device: it enters the epoch of a given duty, accepts from its parent, or stays as it is.
ghost use Rattle.std.specs.Prelude.{◌≡◌, ◌<◌, ◌^◌, option_and_then};
ghost use Rattle.sd_device.specs.Words.{over_link as over};

use crate::Effect;
use crate::msg::Message;
use crate::registers::{Mode, Registers};
use sd_num::clock::{Report, corrected};
use sd_plan::{Duty, Edge};

impl Registers {
    ghost use Rattle.sd_device.specs.Calls.{Receive};
    ghost use Rattle.sd_device.specs.Rules.{entering, accepting, accepted, entered, called};

    /// A message that came over this link while the counter showed this.
    pub(crate) fn receive(&mut self, link: u32, message: &Message, counter: u64) -> Effect
        requires clock { message.now.clock < 2 ^ 100 }
        requires eps { message.now.eps < 2 ^ 100 }
        ensures registers { self.new ≡ (called self.old (Receive link message.now counter)).0 }
        ensures effect { result ≡ (called self.old (Receive link message.now counter)).1 }
    {
        if let Some((duty, edge)) = self.entering(link, message) {
            self.enter(duty);
            return self.accept(&edge, message, counter);
        }
        match self.accepting(link, message) {
            Some(edge) => self.accept(&edge, message, counter),
            None => Effect::Quiet,
        }
    }

    /// The given duty with its primary edge, where the message came over it and is of the duty's
    /// epoch.
    fn entering(&self, link: u32, message: &Message) -> Option<(Duty, Edge)>
        ensures { result ≡ entering self.now link message.now }
    {
        let Some(duty) = self.given else {
            return None;
        };
        if duty.epoch != message.epoch {
            return None;
        }
        match over_link(link, duty.primary) {
            Some(edge) => Some((duty, edge)),
            None => None,
        }
    }

    /// The edge to the present parent, where the message came over it, is of the device's own epoch
    /// and is newer than what it has seen.
    fn accepting(&self, link: u32, message: &Message) -> Option<Edge>
        ensures { result ≡ accepting self.now link message.now }
    {
        if self.epoch() == message.epoch && message.stamp.is_newer(self.stamp) {
            over_link(link, self.edge())
        } else {
            None
        }
    }

    /// It takes up the duty, and follows its primary parent.
    fn enter(&mut self, duty: Duty)
        ensures { self.new ≡ entered self.old duty }
    {
        self.take_up(duty);
        self.mode = Mode::Primary;
    }

    /// It takes over the message's stamp and its corrected report, and relays them.
    fn accept(&mut self, edge: &Edge, message: &Message, counter: u64) -> Effect
        requires clock { message.now.clock < 2 ^ 100 }
        requires eps { message.now.eps < 2 ^ 100 }
        ensures registers { self.new ≡ (accepted self.old edge.now message.now counter).0 }
        ensures effect { result ≡ (accepted self.old edge.now message.now counter).1 }
    {
        let sent = Report {
            clock: message.clock,
            eps: message.eps,
        };
        self.stamp = message.stamp;
        self.estimate = corrected(sent, edge.bounds, counter);
        self.last = counter;
        Effect::Send(Message {
            epoch: self.epoch(),
            stamp: self.stamp,
            clock: self.estimate.clock,
            eps: self.estimate.base,
        })
    }
}

/// The edge, where it leads over this link.
fn over_link(link: u32, edge: Option<Edge>) -> Option<Edge>
    ensures { result ≡ option_and_then (over link) edge }
{
    match edge {
        Some(edge) if edge.link == link => Some(edge),
        _ => None,
    }
}
