//! Generated reports, beside a plain program that looks at all pairs of transactions each time.
use sd_device::msg::Observer;
use sd_num::NoMemory;
use sd_num::clock::Report;
use sd_replay::wait::{WaitTally, Waits};
use std::alloc::{AllocError, Global};
use std::process::Abort;
use std::test::Fail;

/// A report that was told of.
#[derive(Clone, Copy, Debug)]
struct Told {
    line: u64,
    device: u32,
    clock: u64,
    eps: u64,
}

impl Told {
    fn stamp(self) -> u128 {
        u128::from(self.clock) + u128::from(self.eps)
    }

    /// Whether its interval lies wholly past the stamp of the other, of the same device.
    fn ends(self, begin: Told) -> bool {
        let low = u128::from(self.clock).saturating_sub(u128::from(self.eps));
        self.device == begin.device && begin.stamp() < low
    }
}

/// All that was told, the oldest first.
#[derive(Drop)]
struct AllPairs {
    told: Vec<Told>,
}

impl AllPairs {
    /// The place of the first report after one that ends its transaction.
    fn end_of(&self, i: usize) -> Option<usize> {
        let begin = *self.told.get(i)?;
        for (j, end) in self.told.iter().enumerate() {
            if i < j && end.ends(begin) {
                return Some(j);
            }
        }
        None
    }

    /// The transaction of which the last report shows a disorder: of those that ended with no
    /// lesser stamp the one with the greatest, and the first of equal ones.
    fn disorder(&self) -> Option<Told> {
        let last = self.told.last().copied()?;
        let mut worst: Option<Told> = None;
        for (i, begin) in self.told.iter().enumerate() {
            let greater = worst.map_or(true, |w| begin.stamp() > w.stamp());
            if self.end_of(i).is_some() && last.stamp() <= begin.stamp() && greater {
                worst = Some(*begin);
            }
        }
        worst
    }

    /// The lines of the last report.
    fn lines(&self, alloc: Global, name: &str) -> Result<String, AllocError> {
        let mut text = String::new(alloc);
        let Some(Told { line, .. }) = self.told.last().copied() else {
            return Ok(text);
        };
        let last = self.told.len().saturating_sub(1);
        for (i, begun) in self.told.iter().enumerate() {
            if self.end_of(i) == Some(last) {
                let begin = begun.line;
                text.push_str(&format!(in alloc; "ended {line} {begin}\n")?)?;
            }
        }
        if let Some(worst) = self.disorder() {
            let begin = worst.line;
            text.push_str(&format!(in alloc; "disorder {line} {begin}\n")?)?;
        }
        if let Some(told) = self.told.last() {
            let stamp = told.stamp();
            text.push_str(&format!(in alloc; "begin {line} {name} {stamp}\n")?)?;
        }
        Ok(text)
    }

    fn ended(&self) -> u64 {
        let mut ended = 0u64;
        for i in 0..self.told.len() {
            if self.end_of(i).is_some() {
                ended = ended.saturating_add(1);
            }
        }
        ended
    }
}

/// Numbers that look like chance, by a linear congruence.
#[derive(Drop)]
struct Numbers {
    state: u64,
}

impl Numbers {
    fn below(&mut self, bound: u64) -> u64 {
        self.state = self
            .state
            .wrapping_mul(6_364_136_223_846_793_005)
            .wrapping_add(1_442_695_040_888_963_407);
        (self.state >> 33).checked_rem(bound).unwrap_or(0)
    }

    /// A report of one of three devices, whose clock goes on slowly and now and then jumps, also
    /// back. Its line is any number.
    fn report(&mut self, count: u64) -> Told {
        let clock = match self.below(8) {
            0 => self.below(60),
            1 => count.saturating_mul(3),
            _ => count.saturating_add(self.below(30)),
        };
        Told {
            line: self.below(1_000),
            device: u32::try_from(self.below(3)).unwrap_or(0),
            clock,
            eps: self.below(9),
        }
    }
}

/// Tells of a report, and answers its lines.
fn lines_of(alloc: Global, waits: &mut Waits, told: Told) -> Result<Vec<u8>, NoMemory> {
    waits.ready(alloc)?;
    let report = Report {
        clock: u128::from(told.clock),
        eps: u128::from(told.eps),
    };
    waits.seen(told.line, told.device, 0, report);
    waits.lines(alloc, "name")
}

/// The next report is told to both, which answer the same lines.
fn assert_report(
    rt: &(impl AllocGlobal + Abort),
    pairs: &mut AllPairs,
    waits: &mut Waits,
    told: Told,
) -> Result<(), Fail> {
    pairs.told.push(told)?;
    let lines = lines_of(rt.alloc(), waits, told)?;
    let wanted = pairs.lines(rt.alloc(), "name")?;
    assert_eq!(rt; lines.as_slice(), wanted.as_bytes(), "{told:?}");
    Ok(())
}

/// Fifty reports, and how many transactions there were then.
fn assert_reports(
    rt: &(impl AllocGlobal + Abort),
    pairs: &mut AllPairs,
    waits: &mut Waits,
    seed: u64,
) -> Result<(), Fail> {
    let mut numbers = Numbers { state: seed };
    let mut disorders = 0u64;
    for count in 0..50u64 {
        assert_report(rt, pairs, waits, numbers.report(count))?;
        disorders = disorders.saturating_add(u64::from(pairs.disorder().is_some()));
    }
    let wanted = WaitTally {
        begun: 50,
        ended: pairs.ended(),
        disorders,
    };
    assert_eq!(rt; waits.tally(), wanted, "seed {seed}");
    Ok(())
}

/// The same, where both are made.
fn run_seed(rt: &(impl AllocGlobal + Abort), seed: u64) -> Result<(), Fail> {
    let mut pairs = AllPairs {
        told: Vec::new(rt.alloc()),
    };
    let mut waits = Waits::new(rt.alloc());
    let asserted = assert_reports(rt, &mut pairs, &mut waits, seed);
    drop(waits);
    asserted
}

#[test]
fn generated_reports_are_answered_as_by_all_pairs(rt: HostRuntime) -> Result<(), Fail> {
    for seed in 0..40u64 {
        run_seed(&rt, seed)?;
    }
    Ok(())
}
