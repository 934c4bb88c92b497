//! The text of a plan: the series of Microsoft Graph, the instances of them that are to be cancelled, and the single events; or
//! events of vCalendar 1.0.
#![tactic(auto)]

mod laws;
mod moments;
mod plan;
mod vcal;

pub use laws::plan_event_is_read_back;
pub use plan::write_plan;
pub use vcal::write_vcal_plan;
