//! Proofs beside the programs, which need none of them: which conditions are needed (`needed`), other
//! clocks (`translation`), deployed fleets (`deployment`), whose clocks a report rests on
//! (`lineage`), and histories that meet what the theorems ask for (`witness`).
#![tactic(auto)]

pub mod deployment;
pub mod lineage;
pub mod needed;
pub mod translation;
pub mod witness;
