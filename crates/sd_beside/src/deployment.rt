//! Deployed fleets: devices that call the exports of the C library over a network are a history.
//! No function here has a body: this crate has definitions and proofs alone.
//!
//! # The definition
//!
//! `IsDeployment StandsIn setting run` (specs/Deployment) is to be read beside
//! include/sundial_device.h. A run is a list of moments, the newest first. Each moment has the
//! event, the call of an export, the struct that the call left, and what the device told. It may
//! come after those before it where
//!
//! - structs were restored and rebased since (`AreTended`);
//! - the export answered as its contract says (`IsMade`, `IsCalled`, `IsAsked`);
//! - the network brought what was received (`IsDelivered`), and the call has the arguments that
//!   the plan or the message gives it (`IsCallOf`);
//! - whoever runs the fabric kept the order of events (`IsOrderly`).
//!
//! Structs may be of any kind. `Holds` says which registers a struct holds: of the struct of the C
//! library it is `Holds` of sd_device_c. No crate may list a static library, so this one does not
//! name it. What is asked of an export is its contract, by the same definitions (sd_exports): of a
//! port too, `ComesLater`.
//!
//! # The results
//!
//! | Theorem | In words | File |
//! |---|---|---|
//! | `is_history` | each run of a deployed fleet is a history, however long it is, whose steps are the calls and whose reports are the answers | `History` |
//! | `fleet_stays_safe` | so its parents close no loop, and at most one device acts as root | `Fleets` |
//! | `fleet_reports_contain` | each report contains its reference time | `Fleets` |
//! | `fleet_stays_below` | no report is above its number of the drill | `Fleets` |
//! | `fleet_hears_again` | all hear again after a failure | `Fleets` |
//! | `call_stands`, `rebase_stands`, `restore_stands` | a struct stands for the life of its device: one step of each | `Steps` |
//! | `open_port_delivers` | what an open port takes was sent while its link and its device worked | `Ports` |
//! | `counts_once` | after a receipt that counts no later one of the same message does | `Receipts` |
//! | `others_change_nothing` | a receipt that does not count changes nothing | `Receipts` |
//! | `is_witness` | runs with failures, takeovers, rebases and renewals that break no premise, one with the failure after the renewal | `Witness` |
//!
//! The statements are in specs/: `Laws`, `Steps`, `Ports`, `Receipts`, `Witness`. The premises of
//! the second to the fifth are those of histories, of the run's own steps or events.
//!
//! # How
//!
//! `Telling`: each struct stands for the life of its device, so each device tells what the words on
//! devices say of it. `Admitting`: no cause of a refusal holds. From both the run is the chronicle
//! of its events. Rebases ask that a commit keeps the ppm: it does, since all plans are of one
//! topology (`keeps_rate`). `Worked`: a run that is worked out from events, whose structs are registers, is
//! one of a deployed fleet where tests that compute say so.
