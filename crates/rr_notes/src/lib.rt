//! What a program says on standard error beside its answer: why a file could not be read, which word is wrong and what is wanted there, and
//! what to do about a refusal. It changes neither what is put on standard output nor the status.
#![tactic(auto)]

mod again;
mod calendars;
mod files;
mod forms;
mod graph;
mod refusals;
mod starts;
mod visible;
mod words;
mod zones;

pub use again::bytes_again;
pub use calendars::{note_on_calendar_refusal, note_on_calendar_words, note_on_utc};
pub use files::{NO_MEMORY, NO_TEXT, WRITE_FAULT, note_on_file};
pub use graph::{note_on_graph, note_on_graph_of_file};
pub use refusals::{note_on_no, note_on_refusal};
pub use starts::{note_on_starts, note_on_starts_of_files};
pub use words::note_on_words;
pub use zones::{note_on_zone, note_on_zones_of_file};
