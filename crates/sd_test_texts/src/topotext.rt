//! Topologies that are read and printed.
#[cfg(test)]
mod tests;
