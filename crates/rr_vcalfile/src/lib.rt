//! A vCalendar 1.0 text with any number of events as a file of events.
#![tactic(auto)]

mod event;
mod file;
mod find;
mod first;
mod gather;
mod part;
mod series;
mod words;

pub use file::VcalFile;
