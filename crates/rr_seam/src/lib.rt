//! A file of events, whatever its language: the one thing that a comparison of calendars knows of it.
#![tactic(auto)]

mod file;
mod key;
mod marks;
mod refusal;
mod words;

pub use file::{EventFile, FileFault, FileRefusal, KeySeries, MAX_FILE};
pub use key::{Key, compare_keys, copy_key};
pub use marks::Marks;
pub use refusal::{KeyFault, KeyRefusal, at_event};
pub use words::{EventWords, KeyWords, Language, MAX_WORDS, are_same_event, are_same_words};
