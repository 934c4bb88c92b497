//! Canonical texts of sets of occurrences.
#![tactic(auto)]

mod dates;
mod descriptor;
mod laws;
mod least_seq;
mod lines;
mod stretch;
mod text;
mod version;

pub use descriptor::{Descriptor, describe, describe_in, describe_one};
pub use laws::{
    canon_is_equal_exactly, descriptor_tells_sets_apart, descriptors_read_back,
    occurs_from_year_one, second_version_tells_sets_apart,
};
pub use least_seq::{LeastSeq, least};
pub use version::Version;
