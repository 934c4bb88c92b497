//! What `rr-calendars` answers to words, over the bytes of the files: no file is read and nothing is written.
#![tactic(auto)]

mod answers;
mod facts;
mod file;
mod graph;
mod language;
mod names;
mod operand;
mod release;
mod status;
mod texts;
mod words;

pub use answers::{Outcome, answer, answer_to};
pub use language::language_by;
pub use operand::{Language, Operand};
pub use status::Status;
pub use texts::Texts;
pub use words::{Asked, Form, HELP, Request, USAGE, parse};
