//! Spans beside a plain slow search over all honest runs, and spans that meet the bounds of a link.
ghost use Rattle.std.specs.Prelude.{◌≤◌};

use crate::same::assert_same;
use sd_commands::exchanges::bounds::{is_inside, span};
use sd_commands::exchanges::{Exchange, Span};
use sd_num::Rates;
use sd_plan::topo::LinkEntry;

/// An exchange of these numbers.
fn exchange([asym, t1, t2, t3, t4]: [u64; 5]) -> Exchange {
    Exchange {
        asym,
        t1,
        t2,
        t3,
        t4,
    }
}

/// Rates by a small number: none, a grain, and a quarter of what passes.
fn rates(kind: u32) -> Rates
    ensures { result.ppm ≤ 1000000 }
{
    match kind {
        0 => Rates { ppm: 0, grain: 0 },
        1 => Rates { ppm: 0, grain: 1 },
        _ => Rates {
            ppm: 250_000,
            grain: 0,
        },
    }
}

/// The drift rule for two readings of a counter, `counter` apart while `passed` passed.
fn keeps(rates: Rates, counter: u64, passed: u64) -> bool {
    let apart = u128::from(counter.abs_diff(passed)).saturating_mul(1_000_000);
    let ppm = u128::from(rates.ppm).saturating_mul(u128::from(counter));
    apart <= ppm.saturating_add(u128::from(rates.grain).saturating_mul(1_000_000))
}

/// The least and the greatest delay of all honest runs that begin at 0 and end by 10, if there is
/// one.
fn searched(first: Rates, second: Rates, x: Exchange) -> Option<Span> {
    let whole = x.t4.saturating_sub(x.t1);
    let inside = x.t3.saturating_sub(x.t2);
    let mut found: Option<Span> = None;
    for r2 in 0..11u64 {
        for r3 in r2..11 {
            for r4 in r3..11 {
                let back = r4.saturating_sub(r3);
                let held = r3.saturating_sub(r2);
                let near = r2.abs_diff(back) <= x.asym;
                if near && keeps(first, whole, r4) && keeps(second, inside, held) {
                    found = Some(widened(found, r2.min(back), r2.max(back)));
                }
            }
        }
    }
    found
}

/// A span with two more delays in it.
fn widened(span: Option<Span>, low: u64, high: u64) -> Span {
    match span {
        Some(span) => Span {
            min: span.min.min(low),
            max: span.max.max(high),
        },
        None => Span {
            min: low,
            max: high,
        },
    }
}

/// How many exchanges were looked at, how many of them had an honest run, and how many of those
/// runs came to both ends of the span.
#[derive(Clone, Copy, Debug, PartialEq, Eq)]
struct Seen {
    exchanges: u32,
    honest: u32,
    exact: u32,
}

/// Looks at one exchange: whether its delays lie in its span, if it has runs.
fn look(seen: &mut Seen, first: Rates, second: Rates, x: Exchange) -> bool
    requires first { first.ppm ≤ 1000000 }
    requires second { second.ppm ≤ 1000000 }
{
    seen.exchanges = seen.exchanges.saturating_add(1);
    let Some(found) = searched(first, second, x) else {
        return true;
    };
    seen.honest = seen.honest.saturating_add(1);
    match span(first, second, x) {
        Ok(span) => {
            seen.exact = seen.exact.saturating_add(u32::from(span == found));
            span.min <= found.min && found.max <= span.max
        }
        Err(_) => false,
    }
}

/// Looks at all small exchanges of two devices.
fn look_at_all(seen: &mut Seen, first: Rates, second: Rates) -> bool
    requires first { first.ppm ≤ 1000000 }
    requires second { second.ppm ≤ 1000000 }
{
    let mut right = true;
    for whole in 0..7u64 {
        for inside in 0..7u64 {
            for asym in 0..3u64 {
                let numbers = [
                    asym,
                    5,
                    9,
                    inside.saturating_add(9),
                    whole.saturating_add(5),
                ];
                let x = exchange(numbers);
                right = look(seen, first, second, x) && right;
            }
        }
    }
    right
}

#[test]
fn the_delays_of_all_honest_runs_lie_in_the_span(rt: HostRuntime) {
    let mut seen = Seen {
        exchanges: 0,
        honest: 0,
        exact: 0,
    };
    for first in 0..3 {
        for second in 0..3 {
            let right = look_at_all(&mut seen, rates(first), rates(second));
            assert!(rt; right, "rates {first} and {second}");
        }
    }
    // The numbers are those of another program.
    let wanted = Seen {
        exchanges: 1_323,
        honest: 870,
        exact: 656,
    };
    assert_same(&rt, seen, wanted);
}

/// Spans over a link from 3 to 9 one way and from 4 to 8 the other, and whether they are inside.
static INSIDE: [(u64, u64, bool); 6] = [
    (4, 8, true),
    (3, 8, false),
    (4, 9, false),
    (2, 8, false),
    (8, 4, true),
    (9, 3, true),
];

#[test]
fn a_span_is_inside_where_it_meets_the_bounds_of_both_directions(rt: HostRuntime) {
    let link = LinkEntry {
        end_a: 0,
        end_b: 1,
        min: 3,
        max: 9,
        back_min: 4,
        back_max: 8,
    };
    for (min, max, inside) in &INSIDE {
        let span = Span {
            min: *min,
            max: *max,
        };
        assert_eq!(rt; is_inside(link, span), *inside, "{min} to {max}");
    }
}
