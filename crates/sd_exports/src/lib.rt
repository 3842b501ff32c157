//! What the calls of the C library do, in definitions that the library and the proofs on deployed
//! fleets share. No function here has a body.
//!
//! `Exports` is over any kind of struct: `Holds` says which registers a struct holds. The contracts
//! of `sd_device_c` are these definitions of its own struct (`Holds` of specs/Plain). `IsDeployment`
//! of `sd_beside` asks for them. No crate may list a static library, so they stand here.
//!
//! `Ports` has when a port takes what comes (`StandsSince`), and that this was sent after the
//! opening (`ComesLater`): `sundial_port_takes` ensures it, and `open_port_delivers` asks for it.
//!
//! Registers are such structs of themselves (proofs/Registers): `making_is_made`, `call_is_called`,
//! `rebase_is_rebased`, `report_is_told` and `are_answered`.
#![tactic(auto)]
