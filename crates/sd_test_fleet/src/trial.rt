//! A fleet of devices beside a plain slow program that keeps the whole list of its events, and
//! looks all that it needs up in it.
#[cfg(test)]
mod tests;
