//! Registers of a fleet, loops and acting roots, and printed lines.
mod lines;
mod parent_tables;
mod watches;
mod worlds;
