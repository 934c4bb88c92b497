//! Series at odds with RFC 5545, read as calendars show them.
#![tactic(auto)]

mod end_laws;
mod ends;
mod key;
mod lenient;
mod lenient_laws;
mod read_laws;

pub use end_laws::{
    end_is_reached_on_its_day, no_other_end_is_left, other_ends_change, until_kind_is_other_end,
};
pub use ends::{Settled, settle_ends};
pub use key::read_key;
pub use lenient::{Lenient, read_leniently};
pub use lenient_laws::{lenient_is_one, lenient_is_taken, lenient_occurs, taken_is_as_given};
pub use read_laws::{read_is_lenient, read_key_is_stated};
