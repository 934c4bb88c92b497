// Units of a frequency and the interval between them (RFC 5545, section 3.3.10, FREQ, INTERVAL and WKST).
ghost use Rattle.std.specs.Prelude.{◌≡◌, ◌≤◌, ◌-ℤ◌, IsTrue, false};
ghost use Rattle.rr_model.specs.Rule.Candidate.{interval_holds};
ghost use Rattle.rr_model.specs.Moment.Units.{is_whole_days, unit_seconds};
ghost use Rattle.rr_model.specs.Whole.{divides};
ghost use Rattle.rr_model.specs.declared.kind.Kind.TheVariants.{Days};
ghost use Rattle.rr_parts.specs.Units.{unit_of};

use crate::moment::Moment;
use rr_cal::{Day, unit_of_day};
use rr_model::{Freq, Rule};
use rr_num::is_congruent;

/// Whether the moment's unit is a whole number of intervals from the start's (RFC 5545, section 3.3.10, INTERVAL).
pub fn interval_holds(rule: &Rule, start: &Moment, moment: &Moment) -> bool
    requires kind { start.now.kind ≡ moment.now.kind }
    requires interval { 1 ≤ rule.now.interval }
    ensures { result ≡ interval_holds rule.now start.now.kind start.now.at moment.now.at }
{
    let from = unit_number(rule, start);
    let to = unit_number(rule, moment);
    is_congruent(from, to, rule.interval)
}

/// The number of the unit of the rule's frequency in which the moment lies: seconds, minutes and hours since
/// 1970-01-01T00:00:00, and days, weeks, months and years as `rr_cal::unit_of_day` numbers them.
pub fn unit_number(rule: &Rule, moment: &Moment) -> i64
    ensures { result ≡ unit_of rule.now moment.now.kind moment.now.at }
{
    match rule.freq {
        Freq::Secondly => moment.at,
        Freq::Minutely => moment.at.div_euclid(60),
        Freq::Hourly => moment.at.div_euclid(3_600),
        Freq::Daily | Freq::Weekly | Freq::Monthly | Freq::Yearly => {
            unit_of_day(rule.freq, rule.week_start, &moment.day)
        }
    }
}

/// Whether a unit of a rule, DAILY or coarser, is a whole number of intervals from that of the start's day
/// (RFC 5545, section 3.3.10, INTERVAL).
pub fn unit_fits(rule: &Rule, start: &Day, unit: i64) -> bool
    requires freq { IsTrue (is_whole_days rule.now.freq) }
    requires interval { 1 ≤ rule.now.interval }
    ensures { result ≡ divides rule.now.interval (unit -ℤ unit_of rule.now Days start.now.number) }
{
    is_congruent(
        unit_of_day(rule.freq, rule.week_start, start),
        unit,
        rule.interval,
    )
}

/// How many seconds an hour, a minute or a second has.
pub fn seconds_of_unit(freq: Freq) -> u32
    requires { is_whole_days freq ≡ false }
    ensures value { result ≡ unit_seconds freq }
    ensures few { result ≤ 3_600 }
{
    match freq {
        Freq::Hourly => 3_600,
        Freq::Minutely => 60,
        _ => 1,
    }
}
