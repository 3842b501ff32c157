//! Which conditions of a plan are needed: what a plan that breaks one of them can come to. No
//! function here has a body: this crate has definitions and proofs alone.
//!
//! # The results
//!
//! | Theorem | In words | File |
//! |---|---|---|
//! | `ancestor_follows` | ancestor follows from structure, root and loop | `Consequences` |
//! | `domain_follows` | domain follows from reach | `Consequences` |
//! | `loop_is_needed` | each ring of devices that loop forbids can come about | `Loops` |
//! | `loop_refusal_is_right` | so the very loop that the checker shows can | `Loops` |
//! | `cycle_is_needed` | so where a walk comes back, some ring can | `Loops`, `Cycles` |
//! | `loop_is_seen` | an onlooker finds that loop: it is an alarm | `Loops`, `Seen` |
//! | `reach_is_needed` | a device that a domain starves can stay deaf for good | `Reaches` |
//! | `reach_refusal_is_right` | so can the first device of the chain that is shown | `Reaches` |
//! | `root_is_needed` | what takes the backup root's two ways can make two acting roots | `Roots` |
//! | `root_refusal_is_right` | so where the checker shows such a domain, it can | `Refusals` |
//! | `refusal_besides_root_is_right` | so wherever that domain has not the root | `Refusals` |
//! | `two_roots_are_seen` | an onlooker counts two acting roots: the alarm comes | `Alarms` |
//!
//! Each has its statement in specs/ and its proof in proofs/. Of two files the first has the
//! statement, the second the proof.
//!
//! 'Can' means: there is a history of the plan alone that breaks none of the seven premises, in
//! which only things of the one domain fail. For loop, none of the ring is among them, and for root
//! neither root. Ancestor is not used, and timing for root alone, so plans may break them too. One
//! hypothesis stands beside these: `event_bound`, a number that the topology and the plan give, is
//! at most 2 ^ 26. A schedule has no more events than that. For root it is `events_until`, with the
//! ticks of both waits of the backup root.
//!
//! Root is needed for such domains only. Where a domain hits the path of the backup root with the
//! root alone, or has both roots, nothing is proved.
//!
//! # The history
//!
//! 1. At reference 0 the things fail and all other members start, with true clocks (`Beginning`).
//! 2. All live devices tick at each multiple of `tick`. Between them each message is received when
//!    it is due, the first that is due first (`Running`). So no premise breaks.
//! 3. At the first multiple at which `wait` is over, the devices that are to move tick, and the
//!    others of the zone have not ticked yet (`Ready`, `Moving`). The history ends there.
//!
//! For root the end is another one. The backup root moves at the first multiple at which
//! `wait_first` is over. At the first one at which `wait_second` is over since, it ticks before all
//! others and takes over (`Takeovers`). By timing no other wait is over before that (`Times`).
//!
//! # Why it is so
//!
//! The zone is all live devices, other than both roots, that the failures hit (`Zones`). Over the
//! primary link of such a device nothing comes: the link or the parent failed, or the parent is of
//! the zone as well and has nothing to send. So the zone does nothing before its waits are over
//! (`Still`, `Hush`). Each device of a ring is of the zone (`Rings`): a device that is not hit has
//! its primary hop alone, and primaries close no ring. What hits it is not of the ring, for the
//! thing that is farthest up would itself be hit by one farther up.
//!
//! A device that is neither fed nor cut off is of the zone too. At the end of the wait it is on its
//! next hop, and what is there failed, or is such a device as well (`Unfed`). From then on no event
//! but a stage or a failure changes this (`Deaf`, `Continuing`).
//!
//! For root the zone is all live devices but the root whose walk to the root is hit (`CutOff`). The
//! backup root is of it. Its backup link is as silent as its primary one: what it falls back on is
//! hit too, also where things of the domain other than both roots fail alone (`Taken`).
//!
//! # Why the history ends
//!
//! Messages could go round without end. They do not: a device sends only with a newer stamp,
//! there are two terms, and in each no more rounds than ticks of a device (`Turns`, `Budget`). So
//! each receipt lowers a number, the budget, and no tick raises it.
//!
//! # The words, in reading order
//!
//! - specs: `Alone`, histories of one plan in which things fail; `Consequences`, `Loops`,
//!   `Reaches`, `Roots`.
//! - proofs, a calm time: `Worlds` what is seen of it, `Allowed` what may come, `Air` what is on
//!   its way, `Going` one event more.
//! - proofs, devices: `Pasts`, `Still`, `Turns` and `Deaf` by their words; `Hush` in a history.
//! - proofs, the rest: `Beginning`, `Budget`, `Running`, `Ready`, `Moving`; `Zones`, `Rings`,
//!   `Loops`; `Unfed`, `Continuing`, `Reaches`; `Times`, `Takeovers`, `Taken`, `CutOff`, `Roots`,
//!   `Refusals`, `Alarms`; `Paths` and `Elements` for all.
