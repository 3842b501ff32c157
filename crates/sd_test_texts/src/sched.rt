//! Lines of schedules and of exchanges.
#[cfg(test)]
mod tests;
