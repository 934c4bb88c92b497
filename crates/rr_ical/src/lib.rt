//! The event of a calendar text: its used lines, and what they state over any language of rules; and lists of dates or moments.
#![tactic(auto)]

mod beside;
mod components;
mod dates;
mod event;
mod kept;
mod language;
mod laws;
mod lines_alone;
mod lines_beside;
mod list;
mod listed;
mod names;
mod open_names;
mod passes;
mod value;

pub use beside::end_beside;
pub use event::{event_lines, scan_lines};
pub use language::{RuleLanguage, StatedRule};
pub use laws::{folding_does_not_matter, line_ends_do_not_matter};
pub use lines_alone::date_value;
pub use lines_beside::{BesideStart, Setting, date_beside};
pub use list::read_list;
pub use listed::ListedDates;
pub use names::{is_event, is_named, is_same_name, line_kind};
pub use open_names::{OpenNames, Sought};
pub use passes::{ReadEvent, event_of};
pub use value::{after_colon, name_and_rest, value_of_line};
