// A rule in English (RFC 5545, section 3.3.10).
ghost use Rattle.std.specs.Prelude.{◌≡◌, ◌<◌, ◌++◌, OnOk};
ghost use Rattle.rr_model.specs.Calendar.{IsDayWithin};
ghost use Rattle.rr_model.specs.Moment.Years.{IsInYears};
ghost use Rattle.rr_wording.specs.Rules.{day_of_start, days_by_parts, days_words, every_words, has_time_part, has_week_start, is_plain, is_weekly, month_day_part, rule_words, says_time, times_by_parts, times_words, unit_word, week_start_words, weeks_from};

use crate::dates::{day_of, push_at_time, push_day_and_month, weekday_name};
use crate::days::{is_yearly, push_days};
use crate::numbers::{push, push_counted, push_ordinal};
use crate::part::{Part, push_part};
use rr_cal::{date_of, weekday};
use rr_model::{Freq, Kind, NoMemory, Rule};

// The word of a frequency's unit, in the singular: `day` of DAILY.
#[tactic(auto, unfolding(crate::specs::Rules::unit_word))]
fn unit_word(freq: Freq) -> &'static [u8]
    ensures { result.now ≡ unit_word freq }
{
    match freq {
        Freq::Secondly => b"second",
        Freq::Minutely => b"minute",
        Freq::Hourly => b"hour",
        Freq::Daily => b"day",
        Freq::Weekly => b"week",
        Freq::Monthly => b"month",
        Freq::Yearly => b"year",
    }
}

// Appends FREQ and INTERVAL: `every week`, `every 2 weeks`.
#[tactic(auto, unfolding(crate::specs::Rules::every_words))]
fn push_every(out: &mut Vec<u8>, freq: Freq, interval: u32) -> Result<(), NoMemory>
    ensures { OnOk result (out.new.items ≡ out.old.items ++ every_words freq interval) }
{
    push(out, b"every ")?;
    if interval == 1 {
        return push(out, unit_word(freq));
    }
    push_counted(out, u64::from(interval), unit_word(freq))
}

// Whether no part names a day.
#[tactic(auto, unfolding(crate::specs::Rules::is_plain))]
fn is_plain(rule: &Rule) -> bool
    ensures { result ≡ is_plain rule.now }
{
    rule.by_month.is_empty()
        && rule.by_week_no.is_empty()
        && rule.by_year_day.is_empty()
        && rule.by_month_day.is_empty()
        && rule.by_day.is_empty()
}

// Appends the day that a rule without such parts takes from its start, whose day number is `day`.
#[tactic(auto, unfolding(crate::specs::Rules::day_of_start))]
fn push_day_of_start(out: &mut Vec<u8>, freq: Freq, day: i64) -> Result<(), NoMemory>
    requires { IsDayWithin 0 day }
    ensures { OnOk result (out.new.items ≡ out.old.items ++ day_of_start freq day) }
{
    match freq {
        Freq::Weekly => {
            push(out, b" on ")?;
            push(out, weekday_name(weekday(day)))
        }
        Freq::Monthly => {
            push(out, b" on the ")?;
            push_ordinal(out, u64::from(date_of(day).day))
        }
        Freq::Yearly => {
            push(out, b" on ")?;
            push_day_and_month(out, day)
        }
        _ => Ok(()),
    }
}

// In which form the days of BYMONTHDAY are said, by the parts beside them.
#[tactic(auto, unfolding(crate::specs::Rules::month_day_part))]
fn month_day_part(rule: &Rule) -> Part
    ensures { result ≡ month_day_part rule.now }
{
    if !rule.by_year_day.is_empty() {
        Part::OnlyMonthDay
    } else if is_yearly(rule.freq) && rule.by_month.is_empty() {
        Part::EveryMonthDay
    } else {
        Part::MonthDay
    }
}

// Appends the days of a rule with such parts.
#[tactic(auto, unfolding(crate::specs::Rules::days_by_parts))]
fn push_days_by_parts(out: &mut Vec<u8>, rule: &Rule) -> Result<(), NoMemory>
    ensures { OnOk result (out.new.items ≡ out.old.items ++ days_by_parts rule.now) }
{
    push_part(out, Part::Month, rule.by_month.as_slice())?;
    push_part(out, Part::Week, rule.by_week_no.as_slice())?;
    push_part(out, Part::YearDay, rule.by_year_day.as_slice())?;
    push_part(out, month_day_part(rule), rule.by_month_day.as_slice())?;
    push_days(out, rule)
}

// Appends the days of a rule, whose start lies on the day of this number.
#[tactic(auto, unfolding(crate::specs::Rules::days_words))]
fn push_days_of(out: &mut Vec<u8>, rule: &Rule, day: i64) -> Result<(), NoMemory>
    requires { IsDayWithin 0 day }
    ensures { OnOk result (out.new.items ≡ out.old.items ++ days_words rule.now day) }
{
    if is_plain(rule) {
        return push_day_of_start(out, rule.freq, day);
    }
    push_days_by_parts(out, rule)
}

// Whether some part names a time.
#[tactic(auto, unfolding(crate::specs::Rules::has_time_part))]
fn has_time_part(rule: &Rule) -> bool
    ensures { result ≡ has_time_part rule.now }
{
    !(rule.by_hour.is_empty() && rule.by_minute.is_empty() && rule.by_second.is_empty())
}

// Whether the start's time is the only one of each day, so that it is said with the rule.
#[tactic(auto, unfolding(crate::specs::Rules::says_time))]
pub(crate) fn says_time(rule: &Rule) -> bool
    ensures { result ≡ says_time rule.now }
{
    rule.freq.is_whole_days() && !has_time_part(rule)
}

// Appends BYHOUR, BYMINUTE and BYSECOND.
#[tactic(auto, unfolding(crate::specs::Rules::times_by_parts))]
fn push_times_by_parts(out: &mut Vec<u8>, rule: &Rule) -> Result<(), NoMemory>
    ensures { OnOk result (out.new.items ≡ out.old.items ++ times_by_parts rule.now) }
{
    push_part(out, Part::Hour, rule.by_hour.as_slice())?;
    push_part(out, Part::Minute, rule.by_minute.as_slice())?;
    push_part(out, Part::Second, rule.by_second.as_slice())
}

// Appends the times of a rule; dates have none.
#[tactic(auto, unfolding(crate::specs::Rules::times_words))]
fn push_times(out: &mut Vec<u8>, rule: &Rule, kind: Kind, start: i64) -> Result<(), NoMemory>
    ensures { OnOk result (out.new.items ≡ out.old.items ++ times_words rule.now kind start) }
{
    match kind {
        Kind::Days => Ok(()),
        Kind::Moments => {
            if says_time(rule) {
                return push_at_time(out, Kind::Moments, start);
            }
            push_times_by_parts(out, rule)
        }
    }
}

// Whether a rule is one of weeks.
#[tactic(auto, unfolding(crate::specs::Rules::is_weekly))]
fn is_weekly(freq: Freq) -> bool
    ensures { result ≡ is_weekly freq }
{
    matches!(freq, Freq::Weekly)
}

// Whether it matters on which weekday weeks begin.
#[tactic(auto, unfolding(crate::specs::Rules::has_week_start))]
fn has_week_start(rule: &Rule) -> bool
    ensures { result ≡ has_week_start rule.now }
{
    !rule.by_week_no.is_empty()
        || (is_weekly(rule.freq) && (rule.interval > 1 || !rule.by_set_pos.is_empty()))
}

// Appends on which weekday weeks begin.
#[tactic(auto, unfolding(crate::specs::Rules::weeks_from))]
fn push_weeks_from(out: &mut Vec<u8>, weekday: u8) -> Result<(), NoMemory>
    ensures { OnOk result (out.new.items ≡ out.old.items ++ weeks_from weekday) }
{
    push(out, b", weeks beginning on ")?;
    push(out, weekday_name(weekday))
}

// Appends WKST, if it matters.
#[tactic(auto, unfolding(crate::specs::Rules::week_start_words))]
fn push_week_start(out: &mut Vec<u8>, rule: &Rule) -> Result<(), NoMemory>
    ensures { OnOk result (out.new.items ≡ out.old.items ++ week_start_words rule.now) }
{
    if has_week_start(rule) {
        return push_weeks_from(out, rule.week_start);
    }
    Ok(())
}

// Appends a rule without its end.
#[tactic(auto, unfolding(crate::specs::Rules::rule_words))]
pub(crate) fn push_rule(
    out: &mut Vec<u8>,
    rule: &Rule,
    kind: Kind,
    start: i64,
) -> Result<(), NoMemory>
    requires { IsInYears kind start }
    ensures { OnOk result (out.new.items ≡ out.old.items ++ rule_words rule.now kind start) }
{
    push_every(out, rule.freq, rule.interval)?;
    push_days_of(out, rule, day_of(kind, start))?;
    push_times(out, rule, kind, start)?;
    push_part(out, Part::Position, rule.by_set_pos.as_slice())?;
    push_week_start(out, rule)
}
