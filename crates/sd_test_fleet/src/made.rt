//! The schedule of a generated case, as it is listed: a fleet accepts each of its events.
#[cfg(test)]
mod tests;
