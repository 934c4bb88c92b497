//! A list of events of Microsoft Graph as a file of events: series with the moved and cancelled instances that they list.
#![tactic(auto)]

mod file;
mod gather;
mod instances;
mod item;
mod known;
mod lengths;
mod names;
mod series;
mod start;
mod turning;
mod zones;

pub use file::GraphFile;
