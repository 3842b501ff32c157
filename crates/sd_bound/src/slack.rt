//! Less slack: a topology whose oscillators drift less, whose delays are narrower, whose ticks come
//! closer, which loses fewer messages, or which lists fewer fault domains. No function here has a
//! body: this crate has definitions and proofs alone.
//!
//! # The results
//!
//! `IsTighter before after` (specs/Tighter) says what may differ. These hold of all topologies
//! `before` and `after` that it relates (specs/Slack):
//!
//! - `stays_accepted` (proofs/Accepted): a plan that is accepted for `before` is accepted for
//!   `after`.
//! - `no_bound_rises` (proofs/Bounded): a device that has a bound under a fault domain of both has
//!   one for `after`, too, and it is no greater. `no_listed_bound_rises` says so of the numbers
//!   that the drill lists.
//! - `no_bound_appears` (proofs/Bounded): a device that has no bound there gets none by less slack.
//!
//! Nothing else is assumed: neither that the topologies are within their limits, nor that the plan
//! fits them, nor, for the bounds, that it is accepted. Only the last result asks that `before` is
//! within its limits.
//!
//! # The route
//!
//! 1. `Numbers`: each number that the timing rules read falls, and what passes at least rises.
//!    `Waits`: so the timing rules go on to hold.
//! 2. `Alike`: of a topology the other conditions read only how many devices and links there are,
//!    the ends of links and the depth, and of a domain only what it has. Where two agree on that
//!    (`HasShape`, `HasThings`), each condition says the same of both.
//! 3. `Matching`: a tighter topology has the same shape, and each of its domains was there before.
//!    `Accepted` puts the three together.
//! 4. `Sums`: sums of halves fall, and where walks have a greatest length they have a greatest sum.
//!    `Ages`: the oldest age falls. `Walks`: over both topologies a device has the same walks, and
//!    a bound. `Bounded`: the bound falls, as a sum of parts that do.
//!
//! `Rows` has an example, worked out by hand.
