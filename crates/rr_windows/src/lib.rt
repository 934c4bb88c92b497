//! Windows' names of zones beside those of tzdata, as the Unicode CLDR has them.
#![tactic(auto)]

mod names;
mod table;

pub use names::{is_same_zone, other_names};
