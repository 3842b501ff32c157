//! A fleet beside the plain slow program over whole histories (`trial`), a fleet of as many devices
//! as there may be (`load`), one that follows a schedule that was made (`made`), and worked
//! histories, each event with what comes of it, with nodes of other kinds too (`rows`); openings
//! (`resume`) and recorded logs (`record`).
#![tactic(auto)]

mod load;
mod made;
pub mod record;
pub mod resume;
#[cfg(test)]
mod rows;
#[cfg(test)]
mod same;
mod trial;
