//! Placing over topologies that are read, and drafts.
mod drafts;
mod places;
