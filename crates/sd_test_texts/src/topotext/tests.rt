//! Topologies: texts that are read, refused and printed.
mod topologies;
