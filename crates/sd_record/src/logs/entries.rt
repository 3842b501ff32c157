//! What an entry says of itself.
ghost use Rattle.std.specs.Prelude.{◌≡◌, ◌≤◌, ◌^◌, IsTrue};
ghost use Rattle.sd_sched.specs.Spelled.{is_within};
ghost use Rattle.sd_record.specs.logs.Entries.{event_with, name_of, reference_in};

use crate::logs::{Entry, Event, MessageName};

impl Entry {
    /// The reference time of the event, in picoseconds.
    pub fn reference(&self) -> u64
        ensures { result ≡ reference_in self.now }
    {
        match *self {
            Entry::Plain(event) => event.reference(),
            Entry::Receipt { reference, .. } | Entry::Loss { reference, .. } => reference,
        }
    }

    /// The message that the entry names.
    pub fn name(&self) -> Option<MessageName>
        ensures { result ≡ name_of self.now }
    {
        match *self {
            Entry::Plain(_) => None,
            Entry::Receipt { name, .. } | Entry::Loss { name, .. } => Some(name),
        }
    }

    /// The event, where the message that the entry names has this number.
    pub fn event(&self, number: u64) -> Event
        requires entry { IsTrue (is_within (event_with self.now 0)) }
        requires number { number ≤ 2 ^ 60 }
        ensures event { result ≡ event_with self.now number }
        ensures within { IsTrue (is_within result) }
    {
        match *self {
            Entry::Plain(event) => event,
            Entry::Receipt {
                reference,
                counter,
                name,
            } => Event::Recv {
                reference,
                device: name.receiver,
                counter,
                message: number,
            },
            Entry::Loss { reference, .. } => Event::Lose {
                reference,
                message: number,
            },
        }
    }
}
