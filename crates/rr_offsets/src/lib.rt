//! How far local time of the time zones of a calendar text is ahead of UTC, for ever (RFC 5545, section 3.6.5).
#![tactic(auto)]

mod changes;
mod definitions;
mod past;
mod steady;
mod zone_offsets;

pub use definitions::{Definitions, definitions_of};
