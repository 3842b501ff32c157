//! Events that are kept one by one.
ghost use Rattle.std.specs.Prelude.{◌≡◌, ◌++◌, [], ◌∷◌, IsTrue, OnOk, OnErr};
ghost use Rattle.sd_sched.specs.Spelled.{is_within};
ghost use Rattle.sd_gen.specs.Listed.{AreWithin};

use sd_num::NoMemory;
use sd_sched::Event;
use std::alloc::Global;
use std::marker::Model;

/// A list of events, each of which a line of a schedule can say.
#[derive(Drop)]
pub struct EventList {
    items: Vec<Event>,
}

impl Model for EventList {
    ghost use Rattle.std.specs.Prelude.{List};
    ghost use Rattle.sd_sched.specs.declared.Event.{Event};

    ghost Value = { List Event };

    ghost view = { λ l. l.items.items };

    ghost use Rattle.sd_gen.specs.Listed.{AreWithin};

    ghost invariant = { λ l. AreWithin l.items.items };
}

impl EventList {
    /// The empty list.
    pub fn new(alloc: Global) -> EventList
        ensures { result ≡ [] }
    {
        EventList {
            items: Vec::new(alloc),
        }
    }

    /// Adds an event at the end.
    pub fn push(&mut self, _alloc: Global, event: Event) -> Result<(), NoMemory>
        requires { IsTrue (is_within event) }
        ensures added { OnOk result (self.new ≡ self.old ++ (event ∷ [])) }
        ensures same { OnErr result (self.new ≡ self.old) }
    {
        match self.items.push(event) {
            Ok(()) => Ok(()),
            Err(_) => Err(NoMemory),
        }
    }

    /// The events in their order.
    pub fn as_slice(&self) -> &[Event]
        ensures events { result.now ≡ self.now }
        ensures within { AreWithin result.now }
    {
        self.items.as_slice()
    }
}
