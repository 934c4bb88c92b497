// The candidate seconds of a day of a rule whose units are shorter than a day.
ghost use Rattle.std.specs.Prelude.{◌≡◌, ◌≤◌, IfOk, false, nat_lt};
ghost use Rattle.rr_model.specs.Calendar.{IsDayWithin};
ghost use Rattle.rr_model.specs.Moment.{day_part};
ghost use Rattle.rr_model.specs.Rising.Sets.{IsSetOf};
ghost use Rattle.rr_model.specs.declared.kind.Kind.TheVariants.{Moments};
ghost use Rattle.rr_model.specs.Moment.Units.{is_whole_days};
ghost use Rattle.rr_expand.specs.Expansion.{IsCandidateSecond, IsFittingSecond};
ghost use Rattle.rr_expand.specs.UnitTimes.{AreUnitTimes};

use crate::finer_units::{first_fit, first_unit, push_unit, unit_of, units_of_day};
use crate::unit_times::UnitTimes;
use rr_cal::Day;
use rr_model::{Kind, NoMemory, Rule, day_part};
use rr_parts::date_parts_hold;
use rr_times::TimeSet;
use std::alloc::{AllocError, Global};

/// The candidate seconds of one day of a rule that is SECONDLY, MINUTELY or HOURLY (RFC 5545, section 3.3.10), also of
/// a day before the start.
///
/// The start is 86,400 times the day number plus the second of the day. It visits the day's units that fit the interval,
/// and no others. Days within `MAX_DAY` are near enough.
pub fn seconds_on(alloc: Global, rule: &Rule, start: i64, day: i64) -> Result<TimeSet, NoMemory>
    requires freq { is_whole_days rule.now.freq ≡ false }
    requires interval { 1 ≤ rule.now.interval }
    requires start { IsDayWithin 1000 (day_part Moments start) }
    requires near { IsDayWithin 1000 day }
    ensures { IfOk result (λ t. IsSetOf nat_lt t (IsCandidateSecond rule.now start day)) }
{
    let start_day = Day::new(day_part(Kind::Moments, start));
    if !date_parts_hold(rule, &start_day, &Day::new(day)) {
        return TimeSet::of(alloc, &[]);
    }
    fitting_seconds(alloc, rule, start, day)
}

// The seconds of one day in units that fit the interval, at which the time parts hold; date parts are not asked. The rest is
// as in `seconds_on`.
fn fitting_seconds(alloc: Global, rule: &Rule, start: i64, day: i64) -> Result<TimeSet, NoMemory>
    requires freq { is_whole_days rule.now.freq ≡ false }
    requires interval { 1 ≤ rule.now.interval }
    requires start { IsDayWithin 1000 (day_part Moments start) }
    requires near { IsDayWithin 1000 day }
    ensures { IfOk result (λ t. IsSetOf nat_lt t (IsFittingSecond rule.now start day)) }
{
    let times = UnitTimes::new(alloc, rule, start)?;
    fitting_seconds_by(alloc, rule, start, &times, day)
}

/// As `fitting_seconds`, by the minutes and seconds that the time parts allow in a unit: they are the same on each day.
pub fn fitting_seconds_by(
    alloc: Global,
    rule: &Rule,
    start: i64,
    times: &UnitTimes,
    day: i64,
) -> Result<TimeSet, NoMemory>
    requires freq { is_whole_days rule.now.freq ≡ false }
    requires interval { 1 ≤ rule.now.interval }
    requires start { IsDayWithin 1000 (day_part Moments start) }
    requires times { AreUnitTimes rule.now start times.now.minutes.items times.now.seconds.items }
    requires near { IsDayWithin 1000 day }
    ensures { IfOk result (λ t. IsSetOf nat_lt t (IsFittingSecond rule.now start day)) }
{
    let seconds = fitting_list(alloc, rule, start, times, day)?;
    TimeSet::of(alloc, seconds.as_slice())
}

// The seconds of `fitting_seconds_by` as a rising list, put unit by unit.
fn fitting_list(
    alloc: Global,
    rule: &Rule,
    start: i64,
    times: &UnitTimes,
    day: i64,
) -> Result<Vec<u32>, AllocError>
    requires freq { is_whole_days rule.now.freq ≡ false }
    requires interval { 1 ≤ rule.now.interval }
    requires start { IsDayWithin 1000 (day_part Moments start) }
    requires times { AreUnitTimes rule.now start times.now.minutes.items times.now.seconds.items }
    requires near { IsDayWithin 1000 day }
    ensures { IfOk result (λ v. IsSetOf nat_lt v.items (IsFittingSecond rule.now start day)) }
{
    let mut out = Vec::new(alloc);
    let first = first_unit(rule.freq, day);
    let mut unit = first_fit(first, unit_of(rule.freq, start), rule.interval);
    while unit < units_of_day(rule.freq) {
        push_unit(&mut out, rule, unit as u32, &times.minutes, &times.seconds)?;
        unit += u64::from(rule.interval);
    }
    Ok(out)
}
