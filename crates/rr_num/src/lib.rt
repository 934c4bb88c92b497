//! Greatest common divisors, least common multiples within a bound, numbers that differ by whole intervals, and the cycle of
//! a rule.
#![tactic(auto)]

mod congruence;
mod cycle;
mod divisors;
mod factors;

pub use congruence::is_congruent;
pub use cycle::{day_cycle, interval_cycle};
pub use divisors::{gcd, gcd_is_greatest, lcm_is_least, lcm_within};
pub use factors::least_factor;
