// Units shorter than a day: where they lie, and the seconds that the time parts allow in one.
ghost use Rattle.std.specs.Prelude.{◌≡◌, ◌≤◌, ◌<◌, ◌/◌, ◌++◌, ◌-ℤ◌, All, OnOk, false, pos, ℕ};
ghost use Rattle.rr_model.specs.Calendar.{IsDayWithin};
ghost use Rattle.rr_model.specs.Moment.{day_part, moment_at};
ghost use Rattle.rr_model.specs.Moment.Units.{unit_number};
ghost use Rattle.rr_model.specs.Whole.{floor_mod};
ghost use Rattle.rr_model.specs.declared.kind.Kind.TheVariants.{Moments};
ghost use Rattle.rr_model.specs.Moment.Units.{is_whole_days, unit_seconds};
ghost use Rattle.rr_expand.specs.Expansion.{IsUnitNear};
ghost use Rattle.rr_expand.specs.Spread.{of_hour_number, of_minute_number, of_second_number, of_unit};

use crate::spread::{push_hour, push_minute};
use rr_model::{Freq, Rule};
use rr_parts::allows;
use std::alloc::AllocError;

/// How many units of a frequency a day has: 24 hours, 1,440 minutes or 86,400 seconds.
pub fn units_of_day(freq: Freq) -> u64
    ensures { result ≡ 86_400 / unit_seconds freq }
{
    match freq {
        Freq::Hourly => 24,
        Freq::Minutely => 1_440,
        _ => 86_400,
    }
}

/// The number of the unit in which a moment lies, the first one of 1970-01-01 as number 0. The moment is in seconds
/// since its midnight.
pub fn unit_of(freq: Freq, at: i64) -> i64
    requires freq { is_whole_days freq ≡ false }
    requires near { IsDayWithin 1000 (day_part Moments at) }
    ensures value { (w : ℕ) → result ≡ unit_number freq w Moments at }
    ensures near { IsUnitNear result }
{
    match freq {
        Freq::Hourly => at.div_euclid(3_600),
        Freq::Minutely => at.div_euclid(60),
        _ => at,
    }
}

/// The number of the first unit of a day, which is given in days since 1970-01-01.
pub fn first_unit(freq: Freq, day: i64) -> i64
    requires freq { is_whole_days freq ≡ false }
    requires near { IsDayWithin 1000 day }
    ensures value { (w : ℕ) → result ≡ unit_number freq w Moments (moment_at Moments day 0) }
    ensures near { IsUnitNear result }
{
    match freq {
        Freq::Hourly => 24 * day,
        Freq::Minutely => 1_440 * day,
        _ => 86_400 * day,
    }
}

/// How many units after `first` the first one comes that is a whole number of intervals from `start`.
pub fn first_fit(first: i64, start: i64, interval: u32) -> u64
    requires first { IsUnitNear first }
    requires start { IsUnitNear start }
    requires interval { 1 ≤ interval }
    ensures value { result ≡ floor_mod (start -ℤ first) interval }
    ensures below { result < interval }
{
    (start - first).rem_euclid(i64::from(interval)) as u64
}

// Appends the seconds that the time parts allow in the unit of this number in its day; the lists are the minutes and
// the seconds that they allow in an hour and a minute.
pub(crate) fn push_unit(
    out: &mut Vec<u32>,
    rule: &Rule,
    unit: u32,
    minutes: &[u32],
    seconds: &[u32],
) -> Result<(), AllocError>
    requires within { unit < 86_400 / unit_seconds rule.now.freq }
    requires minutes { All (λ m. m < 60) minutes.now }
    requires seconds { All (λ s. s < 60) seconds.now }
    ensures { OnOk result (out.new.items
        ≡ out.old.items ++ of_unit rule.now.freq rule.now unit minutes.now seconds.now) }
{
    match rule.freq {
        Freq::Hourly => push_hour_number(out, rule, unit, minutes, seconds),
        Freq::Minutely => push_minute_number(out, rule, unit, seconds),
        _ => push_second_number(out, rule, unit),
    }
}

// Appends these seconds of these minutes of an hour, if BYHOUR allows it.
fn push_hour_number(
    out: &mut Vec<u32>,
    rule: &Rule,
    hour: u32,
    minutes: &[u32],
    seconds: &[u32],
) -> Result<(), AllocError>
    requires within { hour < 24 }
    requires minutes { All (λ m. m < 60) minutes.now }
    requires seconds { All (λ s. s < 60) seconds.now }
    ensures { OnOk result (out.new.items
        ≡ out.old.items ++ of_hour_number rule.now hour minutes.now seconds.now) }
{
    if allows(&rule.by_hour, hour as i16) {
        push_hour(out, 3_600 * hour, minutes, seconds)?;
    }
    Ok(())
}

// Appends these seconds of a minute of the day, if BYHOUR and BYMINUTE allow it.
fn push_minute_number(
    out: &mut Vec<u32>,
    rule: &Rule,
    minute: u32,
    seconds: &[u32],
) -> Result<(), AllocError>
    requires within { minute < 1_440 }
    requires seconds { All (λ s. s < 60) seconds.now }
    ensures { OnOk result (out.new.items
        ≡ out.old.items ++ of_minute_number rule.now minute seconds.now) }
{
    if allows(&rule.by_hour, (minute / 60) as i16)
        && allows(&rule.by_minute, (minute % 60) as i16)
    {
        push_minute(out, 60 * minute, seconds)?;
    }
    Ok(())
}

// Appends a second of the day, if BYHOUR, BYMINUTE and BYSECOND allow it.
fn push_second_number(out: &mut Vec<u32>, rule: &Rule, second: u32) -> Result<(), AllocError>
    requires within { second < 86_400 }
    ensures { OnOk result (out.new.items ≡ out.old.items ++ of_second_number rule.now second) }
{
    if allows(&rule.by_hour, (second / 3_600) as i16)
        && allows(&rule.by_minute, (second / 60 % 60) as i16)
        && allows(&rule.by_second, (second % 60) as i16)
    {
        out.push(second)?;
    }
    Ok(())
}
