//! Plans as texts, over small networks.
mod printing;
mod reading;
