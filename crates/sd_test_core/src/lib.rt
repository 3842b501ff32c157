//! Devices beside a plain program that looks each word up in the whole list of their calls
//! (`devices`); stamps, the book of flights, observers and commit wait (`messages`).
#![tactic(auto)]

#[cfg(test)]
mod devices;
#[cfg(test)]
mod messages;
#[cfg(test)]
mod same;
