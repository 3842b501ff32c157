//! Lines of schedules and of exchanges, and the spans of links.
mod events;
mod exchanges;
