//! Safety: while no premise is broken, parents of live devices close no loop, and at most one live
//! device acts as root, under every accepted plan and through any number of renewals. No function
//! here has a body: this crate has definitions and proofs alone, a folder for each chapter.
//!
//! # The result
//!
//! `stays_safe : (setting : Setting) → StaysSafe setting` (proofs/whole/Safe). Nothing is assumed
//! beside the premises of the history. `StaysSafe` stands in specs/invariant/Kept: for accepted plans
//! that fit their network, in each history in which no premise is broken, following parents of
//! counted devices comes back to nobody, and at most one of them acts. `sd_replay` stands on it.
//! docs/SAFETY.md tells in words why it is true.
//!
//! It is a case of `always_safe`, and the proof is of that: five conditions (`AreGuarded`), all
//! premises but start, and a history of any length (`IsSteady`). What it is proved with is named so
//! throughout. `Parts` goes from accepted plans and clean histories to these.
//!
//! # The route
//!
//! 1. `invariant` has the invariant in clauses, and `safe : EachKeeps setting → AlwaysSafe setting`: it
//!    is enough that each kind of event keeps its core (`EachKeeps`).
//! 2. `frame`, `moves`, `windows`, `receipts` and `renewals` show that, event by event, from how long
//!    devices can be silent: `safe_if_silent` (renewals/Each).
//! 3. `timers`, `messages` and `waits` have what holds of every history: clocks and ticks, messages and
//!    rounds, deadlines. `silences` has the silences while the root lives, and `terms`, `entering`,
//!    `rounds` and `spans` carry them through all eras.
//! 4. `behind` says how long devices behind the backup root are silent; `traced`, `fallbacks`, `paths`,
//!    `feeds`, `takeovers`, `stragglers` and `commits` show what it asks for.
//! 5. `whole` puts the silences together (`Silent`), and safety with them (`Kept`, `Safe`).
//!
//! What one chapter takes as given and another shows is a type in specs/, and enters as a hypothesis.
//! The head of proofs/NAME.antt says what the chapter NAME shows and how.
//!
//! # The words, in reading order
//!
//! `Bounds` the numbers; `Eras` era, old and new, hits, when a device heard, moved and sent;
//! `Clauses` each clause as a test that computes; `Invariant` its records; `Guarded` what safety uses;
//! `Coming` what is given at an event; `Silences` and `Kept` what is to be shown.
//!
//! # The parts of the invariant
//!
//! C0 calm beginning, C1 census, C2 roles, C3 what puts a device on its backup, C4 what makes the
//! backup root move and take over, C5 the path of the backup root, C6 its shadow, C7 its fallback,
//! C8 a window before its commit, C9 after its commit, C10 its closing. C7 and the matters of order
//! in C8 and C9 follow from the rest in every clean history (`Following`), so that `Core` leaves
//! them out.
//!
//! # The lemmas by number, and where they are
//!
//! H is the greatest number of hops of a path, K of rounds lost in a row, D the greatest delay of a
//! hop, Q how far apart ticks lie, P how far apart rounds lie, A = (K + 1) * P, W the silence that a
//! plan allows for, V = W + Q.
//!
//! | No. | In words | Folder |
//! |---|---|---|
//! | 1, 2 | two readings of a life: counters X apart and references Low(X) or Up(X) apart | `timers` |
//! | 3 | a current member ticks within Q | `timers` |
//! | 4 | deadlines: how long a silence or a rest can last before the device moves or takes over | `timers`, `waits`, `moves` |
//! | 5 | it does neither earlier than Low of its wait | `timers`, `waits` |
//! | 6 | emissions lie Low(period) apart at least, and P at most | `timers`, `waits` |
//! | 7 | one way: primary, backup, acting, and back only by an entry | `timers`, `waits` |
//! | 8 | trace: from an accepted message hop by hop to the device that emitted it | `messages` |
//! | 9 | stamps: no two emissions have one, and they rise; terms are led in all eras | `messages`, `terms` |
//! | 10 | no overlap: a round is received before the next of its term is emitted | `messages` |
//! | 11 | flow: a round that is not spoiled comes along a whole way | `messages` |
//! | 12 | of K + 1 rounds one is not spoiled; feeding: a device along a whole way from an acting one hears within A + m * D | `messages`, `silences` |
//! | 13 | while the root lives, a device with a whole path hears | `spans` |
//! | 14 | a device behind the backup root that is not hit is silent for less than its wait | `behind` from `paths`, `feeds`, `takeovers`, `stragglers`, `commits` |
//! | 15 | while the root lives, the backup root on its backup hears | `spans` |
//! | 16 | where the root failed, the backup root acts soon | `behind`; what it heard `traced`, `fallbacks` |
//! | 17 | a device beside the backup root that is not hit otherwise is silent for less than its wait | `behind`, `fallbacks` |
//! | 18 | after a commit each member of the staged plan enters within A + H * D, and goes on hearing | `entering` |
//! | 19 | a new device moves no more, and its parents are new | `windows`, `moves`, `renewals` |
//! | 20 | 13, 15 and 17 of devices that are old yet after a commit | `rounds`, `spans`, `fallbacks` |
//! | 21 | who is up and left out by the staged plan is hit, and neither root nor backup root | `renewals` |
//! | 22 | no loop and one root, before a commit and after it | invariant/Safe |
//! | 23 | a window closes with a seal alone, and C10 holds then | invariant/Closings, `windows`, `renewals` |
//!
//! # Facts that the chapters share, in `invariant`
//!
//! `Facts`: what the plan in force is. `Empty`: the core before the first event, and so before each
//! event that comes. `Known`: who is old, has moved or acts is up. `Causes`: what a move or a takeover
//! shows. `Opening`: what C10 gives the new era. `Schedules`: small histories for rows that compute.
//!
//! # Using a clause
//!
//! A clause is `Of test`, that is `(d : ℕ) → IsTrue (test d)`, with `a ⟹ b` for 'where a, there b'.
//! `implied` (`Sides`) opens one, `from_absurd` (`Fallback`) shows one whose condition fails. A
//! clause that asks something of each member without asking that it is up asks it of devices of the
//! network (`belongs`): a plan leaves out no number past the last device.
//!
//! # Why some things are as they are
//!
//! - `IsTimedBy` asks for Q >= 1: 2 * W is below the least first wait only so.
//! - C1 has 'counted devices are never past' as a clause of its own, since a device that is no
//!   member and joined may be past by the clause on outsiders alone.
//! - C5 says nothing of the root, and nothing is lost. C7 is the one user of the ancestor condition.
//! - No loop before and after a commit is one proof: each thing is asked only of devices from which
//!   parents lead on without end, and new devices are none of these.
#![tactic(auto)]
