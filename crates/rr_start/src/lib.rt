//! A series whose start its rule does not choose, restated so that `check` takes it.
#![tactic(auto)]

mod first_chosen;
mod first_second;
mod laws;
mod off;
mod restate;

pub use laws::{
    later_starts_choose, off_is_not_synchronised, reread_is_one, reread_is_taken, reread_occurs,
    taken_is_not_off,
};
pub use restate::{Reading, reread};
