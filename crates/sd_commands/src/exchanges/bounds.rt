//! The span of an exchange, and whether it lies within a topology's bounds.
ghost use Rattle.std.specs.Prelude.{◌≡◌, ◌<◌, ◌≤◌, Ok, Err, ℕ, IfOk, length};
ghost use Rattle.sd_plan.specs.topo.Topologies.{network};
ghost use Rattle.sd_commands.specs.exchanges.Spans as definitions;
ghost use Rattle.sd_commands.specs.exchanges.Spans.{Covers, IsHonestRun, span_of};
ghost use Rattle.sd_commands.specs.exchanges.Lines as lines;

use crate::exchanges::{Exchange, ExchangeFault, Span};
use sd_num::{Rates, low, up};
use sd_plan::topo::{LinkEntry, Topology};

/// The greatest delay that a span may have, in ps.
const MOST_DELAY: u128 = 1_000_000_000_000;

/// The span of an exchange between a beginner with the first rates and another device with the
/// second. Both delays of each honest run of the exchange lie in it: of four reference times at
/// which both counters keep their rates and the delays differ by at most `asym`.
#[tactic(auto, using(crate::proofs::exchanges::Clauses::covers_result, crate::proofs::exchanges::Clauses::none_backwards, crate::proofs::exchanges::Clauses::none_impossible))]
pub fn span(first: Rates, second: Rates, x: Exchange) -> Result<Span, ExchangeFault>
    requires first { first.ppm ≤ 1000000 }
    requires second { second.ppm ≤ 1000000 }
    ensures span { result ≡ span_of first second x }
    ensures covers { IfOk result (Covers first second x) }
    ensures none_backwards { result ≡ Err ExchangeFault.Backwards → (r1 r2 r3 r4 : ℕ)
        → IsHonestRun first second x r1 r2 r3 r4 → ⊥ }
    ensures none_impossible { result ≡ Err ExchangeFault.Impossible → (r1 r2 r3 r4 : ℕ)
        → IsHonestRun first second x r1 r2 r3 r4 → ⊥ }
{
    if x.t4 < x.t1 || x.t3 < x.t2 {
        return Err(ExchangeFault::Backwards);
    }
    let whole = x.t4 - x.t1;
    let inside = x.t3 - x.t2;
    let most_whole = up(first, whole);
    let least_inside = u128::from(low(second, inside));
    if most_whole < least_inside {
        return Err(ExchangeFault::Impossible);
    }
    let asym = u128::from(x.asym);
    let most = most_whole - least_inside;
    let least = u128::from(low(first, whole)).saturating_sub(up(second, inside));
    let max = most.min((most + asym) / 2);
    if max > MOST_DELAY {
        return Err(ExchangeFault::TooLarge);
    }
    Ok(Span {
        min: ((least.saturating_sub(asym) + 1) / 2) as u64,
        max: max as u64,
    })
}

/// The span of an exchange over a link of the topology, which the link's first end began on side 0
/// and its second on side 1.
pub fn span_over(topo: &Topology, link: u32, side: u8, x: Exchange) -> Result<Span, ExchangeFault>
    requires link { link < length (network topo.now).links }
    requires side { side ≤ 1 }
    ensures { result ≡ lines.span_over (network topo.now) link side x }
{
    let ends = topo.link(link);
    if side == 0 {
        span(topo.rates(ends.end_a), topo.rates(ends.end_b), x)
    } else {
        span(topo.rates(ends.end_b), topo.rates(ends.end_a), x)
    }
}

/// Whether a span lies within the topology's bounds of both directions of a link.
pub fn is_inside(link: LinkEntry, span: Span) -> bool
    ensures { result ≡ definitions.is_inside link span }
{
    link.min <= span.min
        && span.max <= link.max
        && link.back_min <= span.min
        && span.max <= link.back_max
}
