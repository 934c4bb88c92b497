//! The search for a plan: several events of Microsoft Graph, some of their occurrences cancelled, and single occurrences, which
//! together have the occurrences of a set, each once (patternedRecurrence, cancelledOccurrences); or several events of vCalendar
//! 1.0 with one rule each and the dates taken out of it, and single dates.
//!
//! `search` and `search_vcal` take one guess after another out of the set, whatever is guessed: what a guess has and the set has
//! not is cancelled, and what the set has and the guess has not is left. What is left at the end are the single ones.
#![tactic(auto)]

mod begun;
mod candidates;
mod days;
mod left;
mod limits;
mod rules;
mod split;
mod tails;
mod take;
mod vcal;
mod years;

pub use limits::{MAX_DAYS_COMPARED, MAX_EXCEPTIONS, MAX_PARTS};
pub use split::{Plan, search};
pub use vcal::{VcalPlan, search_vcal};
