// The candidate days of a unit of whole days.
ghost use Rattle.std.specs.Prelude.{◌≤◌, ◌+ℤ◌, IfOk, IsTrue, int_lt, pos};
ghost use Rattle.rr_model.specs.Calendar.{IsDayWithin};
ghost use Rattle.rr_model.specs.Rising.Sets.{IsSetOf};
ghost use Rattle.rr_model.specs.declared.kind.Kind.TheVariants.{Days};
ghost use Rattle.rr_model.specs.Rule.DaysAndTimes.{IsCandidateDay};
ghost use Rattle.rr_model.specs.Moment.Units.{is_whole_days};
ghost use Rattle.rr_parts.specs.Units.{start_of_unit};
ghost use Rattle.rr_expand.specs.KeptMasks.{AreAllowedDays};
ghost use Rattle.rr_expand.specs.Years.{filling_of};

use rr_cal::{Day, days_in_unit, first_day_of_unit};
use rr_model::{Dates, NoMemory, Rule};
use rr_parts::{date_parts_hold, unit_fits};
use std::alloc::Global;

/// The days of a unit of a rule, DAILY or coarser, at which its date parts hold, filled from the start's day, and the
/// interval from there fits (RFC 5545, section 3.3.10).
///
/// Days are day numbers. Units are numbered over all days: a day by itself, a week by `floor((d + 3 - w) / 7)` of each of
/// its days `d` if weeks begin on the weekday `w`, a month by 12 times its year plus the months before it there, a
/// year by itself. A unit that holds a day within `MAX_DAY` is near enough.
pub fn days(alloc: Global, rule: &Rule, start_day: i64, unit: i64) -> Result<Dates, NoMemory>
    requires freq { IsTrue (is_whole_days rule.now.freq) }
    requires interval { 1 ≤ rule.now.interval }
    requires start { IsDayWithin 1000 start_day }
    requires first { IsDayWithin 1000 (start_of_unit rule.now Days unit) }
    requires next { IsDayWithin 1000 (start_of_unit rule.now Days (unit +ℤ pos 1)) }
    ensures { IfOk result (λ days. IsSetOf int_lt days (IsCandidateDay rule.now start_day unit)) }
{
    let start = Day::new(start_day);
    if !unit_fits(rule, &start, unit) {
        return Ok(Dates::new(alloc));
    }
    let first = first_day_of_unit(rule.freq, rule.week_start, unit);
    days_from(alloc, rule, &start, first, days_in_unit(rule.freq, unit))
}

// The days, of `count` from the first on, at which the date parts hold.
fn days_from(
    alloc: Global,
    rule: &Rule,
    start: &Day,
    first: i64,
    count: u16,
) -> Result<Dates, NoMemory>
    requires first { IsDayWithin 1000 first }
    requires last { IsDayWithin 1000 (first +ℤ pos count) }
    ensures { IfOk result (AreAllowedDays (filling_of rule.now start.now.number) first count) }
{
    let mut days = Dates::new(alloc);
    for k in 0..count {
        let day = Day::new(first + i64::from(k));
        if date_parts_hold(rule, start, &day) {
            days.put(day.number)?;
        }
    }
    Ok(days)
}
