//! The events and other components of a whole calendar text: where each stands, and what stands directly in it.
#![tactic(auto)]

mod begin;
mod cut;
mod find;
mod full;
mod laws;
mod own;
mod parameter;
mod segment;
mod words;

pub use begin::has_begin;
pub use cut::{Cut, Rest, after_empty_lines, cut_line};
pub use find::{Piece, find_events};
pub use full::full_lines;
pub use laws::parts_unfold_alone;
pub use own::{first_named, first_value, own_lines};
pub use parameter::parameter_of;
pub use segment::{Segment, piece_lines, segments};
pub use words::deciding_lines;
