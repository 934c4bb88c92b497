//! The moments of UTC that local times name (RFC 5545, section 3.3.5), zones as offsets from UTC for ever, and laws about series
//! whose local times name moments.
#![tactic(auto)]

mod change;
mod laws;
mod names;
mod offsets;
mod parted;
mod parting;
mod search;
mod span;

pub use change::Change;
pub use laws::{
    agreeing_below, agreeing_zones_agree, equal_zones_equal_moments, floating_differs,
    local_no_is_true_no, one_zone_equal_moments, sketch_repeats, true_moment_is_near,
    true_moment_is_one, true_moments_repeat, true_set_repeats, utc_is_itself, zones_agree_for_ever,
};
pub use names::ZoneNames;
pub use offsets::{Offsets, ZoneCycle};
pub use parted::Apart;
pub use parting::apart;
