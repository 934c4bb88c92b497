//! An iCalendar text as a file of events: series with moved and cancelled instances.
#![tactic(auto)]

mod alone;
mod day;
mod edit;
mod event;
mod file;
mod gather;
mod key;
mod laws;
mod lengths;
mod part;
mod series;
mod stated;
mod taken;
mod title;
mod unread;
mod words;
mod zone;

pub use file::IcalFile;
pub use laws::{date_takes_time, day_has_one_time, events_occur};
pub use unread::{Unread, unread_components};
