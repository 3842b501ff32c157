//! The receipts of the messages that wait.
ghost use Rattle.std.specs.Prelude.{◌≡◌, ◌≤◌, ◌^◌, IfOk, OnOk};
ghost use Rattle.sd_history.specs.World.{Setting};
ghost use Rattle.sd_gen.specs.arrivals.Waiting.{next_by};
ghost use Rattle.sd_gen.specs.Drafts.{Draft, receive_until as receive_until_in};
ghost use Rattle.sd_gen.specs.Receiving.{received};

use crate::arrivals::Arrival;
use crate::driven::Driven;
use crate::driver::Driver;
use sd_num::NoMemory;
use sd_sched::Event;
use std::alloc::Global;

/// The greatest number that a line of a schedule can say.
const MOST: u64 = 1 << 60;

impl<D: Driven> Driver<D> {
    ghost use Rattle.sd_gen.specs.Standing.{StandsFor, Becomes};
    ghost use Rattle.sd_gen.specs.Receiving.{ReceivesNext};

    /// All messages that come up to the moment are received, each at its own moment, with those
    /// that such receipts send.
    pub fn receive_until(&mut self, alloc: Global, moment: u64) -> Result<(), NoMemory>
        requires { moment ≤ 2 ^ 40 }
        ensures { OnOk result
            (Becomes D.Driven self.old self.new (λ setting. receive_until_in setting moment)) }
    {
        'receipts: for _ in 0..u64::MAX {
            if !self.receive_next(alloc, moment)? {
                return Ok(());
            }
        }
        Ok(())
    }

    /// The message that comes next up to the moment is received; tells whether there was one.
    fn receive_next(&mut self, alloc: Global, moment: u64) -> Result<bool, NoMemory>
        requires { moment ≤ 2 ^ 40 }
        ensures { IfOk result (λ more. (setting : Setting) (x : Draft)
            → StandsFor D.Driven self.old setting x
            → ReceivesNext D.Driven self.new setting x (next_by moment x.waiting) more) }
    {
        let Some(arrival) = self.arrivals.take_by(moment) else {
            return Ok(false);
        };
        self.receive(alloc, arrival)?;
        Ok(true)
    }

    /// A message that waits no longer is received.
    fn receive(&mut self, alloc: Global, arrival: Arrival) -> Result<(), NoMemory>
        requires { arrival.moment ≤ 2 ^ 40 }
        ensures { OnOk result (arrival.number ≤ 2 ^ 60
            → Becomes D.Driven self.old self.new (λ setting. received setting arrival)) }
    {
        // no message has a greater number
        if arrival.number > MOST {
            return Ok(());
        }
        let counter = self.counter(arrival.receiver, arrival.moment);
        let receipt = Event::Recv {
            reference: arrival.moment,
            device: arrival.receiver,
            counter,
            message: arrival.number,
        };
        self.try_event(alloc, &receipt)
    }
}
