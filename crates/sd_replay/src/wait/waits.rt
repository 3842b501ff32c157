//! Who waits, who ended, and what the last report shows.
ghost use Rattle.std.specs.Prelude.{◌≡◌, ◌+◌, ◌-◌, ◌<◌, ◌≤◌, ◌^◌, ◌++◌, ◌∷◌, [], ℕ, List, OnOk, IfOk, length};
ghost use Rattle.sd_device.specs.msg.Observed.{ReportAt};
ghost use Rattle.sd_replay.specs.wait.Waits.{tally_of};
ghost use Rattle.sd_replay.specs.wait.Printed.{bytes_at};
ghost use Rattle.sd_replay.specs.wait.Standing.{StandsFor};

use crate::wait::WaitTally;
use crate::wait::printing::{Shown, print};
use crate::wait::transactions::{
    Transaction, disordered_by, end_below, settle, sort_by_place, worst_of,
};
use sd_device::msg::Observer;
use sd_num::NoMemory;
use sd_num::clock::Report;
use std::alloc::Global;
use std::collections::BTreeSet;
use std::marker::Model;

/// The transactions that wait, and what the last report showed. It stands for the lists of reports
/// of which these are what commit wait defines.
///
/// A report takes the time of a search among those that wait, and of one more for each that ends.
#[derive(Drop)]
pub struct Waits {
    /// Those that wait, but for the one that began last.
    waiting: BTreeSet<Transaction>,
    /// The one that began last, until `ready` puts it among those that wait: only that may fail.
    pending: Option<Transaction>,
    /// Those that ended at the last report, in the order in which they began.
    ended: Vec<Transaction>,
    /// Of all that ended, the first with the greatest stamp.
    worst: Option<Transaction>,
    /// What the last report began, and of which transaction it showed a disorder.
    last: Option<Shown>,
    begun: u64,
    disorders: u64,
}

impl Model for Waits {
    ghost use Rattle.sd_replay.specs.wait.Waiting.{Held};

    ghost Value = { Held };

    ghost use Rattle.sd_replay.specs.wait.WaitsView.{waits_seen, AreWaits};

    ghost view = { waits_seen };

    ghost invariant = { AreWaits };
}

impl Waits {
    /// No report was seen.
    pub fn new(alloc: Global) -> Waits
        ensures { StandsFor result [] }
    {
        Waits {
            waiting: BTreeSet::new(alloc),
            pending: None,
            ended: Vec::new(alloc),
            worst: None,
            last: None,
            begun: 0,
            disorders: 0,
        }
    }

    /// The lines of the last report, with the name of its device: what ended, a disorder if there
    /// is one, and what began. Nothing where no report was seen.
    pub fn lines(&self, alloc: Global, name: &str) -> Result<Vec<u8>, NoMemory>
        ensures { (told : List ReportAt) → StandsFor self.now told
            → IfOk result (λ text. text.items ≡ bytes_at told (length told - 1) name.now) }
    {
        let mut text = Vec::new(alloc);
        self.add_lines(&mut text, name)?;
        Ok(text)
    }

    /// Adds the same lines to a text.
    pub fn add_lines(&self, text: &mut Vec<u8>, name: &str) -> Result<(), NoMemory>
        ensures { (told : List ReportAt) → StandsFor self.now told
            → OnOk result (text.new.items
            ≡ text.old.items ++ bytes_at told (length told - 1) name.now) }
    {
        match self.last {
            Some(shown) => print(text, self.ended.as_slice(), shown, name),
            None => Ok(()),
        }
    }

    /// How many wait.
    fn count(&self) -> u64
        ensures { result ≡ length self.now.waiting }
    {
        self.waiting.len() as u64 + u64::from(self.pending.is_some())
    }

    /// How many began and ended, and at how many reports a disorder showed.
    pub fn tally(&self) -> WaitTally
        ensures { (told : List ReportAt) → StandsFor self.now told → result ≡ tally_of told }
    {
        WaitTally {
            begun: self.begun,
            ended: self.begun - self.count(),
            disorders: self.disorders,
        }
    }
}

impl Observer for Waits {
    ghost stands = { λ s told. StandsFor s told };

    ghost room = { λ s. s.room };

    /// A count that is full has no more room either; it is never reached.
    fn ready(&mut self, alloc: Global) -> Result<(), NoMemory> {
        if self.begun == u64::MAX {
            return Err(NoMemory);
        }
        settle(&mut self.waiting, &mut self.pending)?;
        let Ok(()) = self.ended.reserve(self.waiting.len()) else {
            return Err(NoMemory);
        };
        Ok(())
    }

    fn seen(&mut self, line: u64, device: u32, reference: u64, report: Report) {
        let begin = Transaction {
            device,
            stamp: report.clock + report.eps,
            place: self.begun,
            line,
        };
        let low = report.clock.saturating_sub(report.eps);
        self.ended.clear();
        end_below(&mut self.waiting, &mut self.ended, device, low);
        sort_by_place(&mut self.ended);
        self.worst = worst_of(self.worst, &self.ended);
        let disorder = disordered_by(self.worst, begin.stamp);
        self.pending = Some(begin);
        self.begun += 1;
        self.disorders += u64::from(disorder.is_some());
        self.last = Some(Shown { begin, disorder });
    }
}
