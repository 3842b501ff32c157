//! A fleet of as many devices as a network may have, driven over many events. `bench/fleet.sh` times
//! it.
#[cfg(test)]
mod tests;
