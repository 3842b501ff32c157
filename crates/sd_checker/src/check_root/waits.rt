//! Whether the waits of a plan are long enough.
ghost use Rattle.std.specs.Prelude.{◌≡◌, ◌≤◌, ◌+◌, ◌*◌, ◌^◌, map, max, find};
ghost use Rattle.sd_checker.specs.check_root.Inequalities as rules;
ghost use Rattle.sd_checker.specs.check_root.Timing as times;
ghost use Rattle.sd_plan.specs.Plans.{Fits};
ghost use Rattle.sd_plan.specs.topo.Network as network_words;
ghost use Rattle.sd_plan.specs.topo.Topologies.{network};

use crate::check_root::TimingBreach;
use sd_num::{low, up};
use sd_plan::Plan;
use sd_plan::topo::Topology;

/// A rule of timing, in the order in which they are asked.
#[derive(Clone, Copy)]
enum Rule {
    /// The way of a round there and back ends before the next emission.
    Period,
    /// The first wait of the backup root outlasts each silence of a sound path.
    FirstWait,
    /// Its second wait does.
    SecondWait,
    /// Every other device waits until the backup root has taken over.
    Wait,
    /// It does so also where a late round begins the backup root's first wait anew.
    WaitAnew,
}

/// A rule with the two sides of its inequality: the left one must be the greater.
#[derive(Clone, Copy)]
struct Inequality {
    rule: Rule,
    left: u128,
    right: u128,
}

/// The least reference time that passes while the counter of any device advances by `x`.
fn least_low(topo: &Topology, x: u64) -> u64
    ensures { result ≡ network_words.least_low (network topo.now) x }
{
    let mut least = low(topo.rates(0), x);
    for d in 1..topo.devices() {
        least = least.min(low(topo.rates(d), x));
    }
    least
}

/// The greater of two times.
fn greater(a: u128, b: u128) -> u128
    ensures { result ≡ max a b }
{
    if a < b { b } else { a }
}

/// The greatest reference time in ps that passes while the counter of any device advances by `x`.
pub fn greatest_up(topo: &Topology, x: u64) -> u128
    ensures is { result ≡ network_words.greatest_up (network topo.now) x }
    ensures bound { result ≤ 2 * x + 2 ^ 40 }
{
    let mut greatest = 0;
    for d in 0..topo.devices() {
        greatest = greater(greatest, up(topo.rates(d), x));
    }
    greatest
}

/// The greatest reference time in ps that a device with a sound path stays silent, and a tick.
pub fn silence_and_tick(topo: &Topology) -> u128
    ensures is { result ≡ times.silence (network topo.now) + (network topo.now).params.tick }
    ensures bound { result ≤ 2 ^ 80 }
{
    let params = topo.params();
    let tick = u128::from(params.tick);
    let gap = greatest_up(topo, params.period) + tick;
    let delay = u128::from(topo.greatest_delay());
    let lost = (u128::from(params.loss) + 2) * gap;
    lost + 4 * (u128::from(params.depth) + 1) * delay + tick
}

/// What the time between two emissions must exceed.
fn round_trip(topo: &Topology) -> u128
    ensures { result ≡ 2 * ((network topo.now).params.depth + 1) * network_words.greatest_delay
        (network topo.now) + (network topo.now).params.tick }
{
    let params = topo.params();
    let delay = u128::from(topo.greatest_delay());
    2 * (u128::from(params.depth) + 1) * delay + u128::from(params.tick)
}

impl Rule {
    /// The rule's number as it is printed, from 1.
    fn number(self) -> u8
        ensures { result ≡ rules.number_of self }
    {
        match self {
            Rule::Period => 1,
            Rule::FirstWait => 2,
            Rule::SecondWait => 3,
            Rule::Wait => 4,
            Rule::WaitAnew => 5,
        }
    }
}

impl Inequality {
    /// An inequality whose left side is the least reference time of a counter time.
    fn of_time(topo: &Topology, rule: Rule, time: u64, right: u128) -> Inequality
        ensures { result ≡ record {
          rule = rule;
          left = network_words.least_low (network topo.now) time;
          right = right;
        } }
    {
        Inequality {
            rule,
            left: u128::from(least_low(topo, time)),
            right,
        }
    }

    /// Whether the two sides break the rule. The first rule wants the left side greater, the others
    /// at least as great.
    fn is_broken(self) -> bool
        ensures { result ≡ times.is_broken (rules.breach_of self) }
    {
        match self.rule {
            Rule::Period => self.left <= self.right,
            Rule::FirstWait | Rule::SecondWait | Rule::Wait | Rule::WaitAnew => self.left
                < self.right,
        }
    }

    /// What is shown of the inequality where it is broken.
    fn breach(self) -> TimingBreach
        ensures { result ≡ rules.breach_of self }
    {
        TimingBreach {
            rule: self.rule.number(),
            left: self.left,
            right: self.right,
        }
    }
}

/// The inequalities of a plan, in the order of their rules.
fn inequalities_of(topo: &Topology, plan: &Plan) -> [Inequality; 5]
    requires { Fits (network topo.now) plan.now }
    ensures { map rules.breach_of result ≡ times.inequalities (network topo.now) plan.now }
{
    let silent = silence_and_tick(topo);
    let first = greatest_up(topo, plan.wait_first);
    let second = greatest_up(topo, plan.wait_second);
    [
        Inequality::of_time(topo, Rule::Period, topo.params().period, round_trip(topo)),
        Inequality::of_time(topo, Rule::FirstWait, plan.wait_first, 2 * silent),
        Inequality::of_time(topo, Rule::SecondWait, plan.wait_second, 2 * silent),
        Inequality::of_time(topo, Rule::Wait, plan.wait, first + second + 6 * silent),
        Inequality::of_time(
            topo,
            Rule::WaitAnew,
            plan.wait,
            2 * first + second + 2 * silent,
        ),
    ]
}

/// The first of some inequalities that is broken.
fn first_broken(inequalities: &[Inequality]) -> Option<Inequality>
    ensures { result ≡ find (λ i. times.is_broken (rules.breach_of i)) inequalities.now }
{
    for inequality in inequalities {
        if inequality.is_broken() {
            return Some(*inequality);
        }
    }
    None
}

/// The first timing inequality that a plan breaks: emissions far enough apart for the rounds in
/// flight, and waits that outlast each silence that the plan allows.
pub fn timing_breach(topo: &Topology, plan: &Plan) -> Option<TimingBreach>
    requires { Fits (network topo.now) plan.now }
    ensures { result ≡ times.timing_breach (network topo.now) plan.now }
{
    match first_broken(&inequalities_of(topo, plan)) {
        Some(broken) => Some(broken.breach()),
        None => None,
    }
}
