//! A replay beside a plain slow program (`plain`) that judges each premise over the whole list of
//! events.
#![tactic(auto)]

#[cfg(test)]
mod plain;
#[cfg(test)]
mod tests;
