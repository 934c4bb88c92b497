// The members of a pattern (Microsoft Graph, recurrencePattern).
ghost use Rattle.std.specs.Prelude.{◌≡◌, ◌≤◌, ◌<◌, codes, pos, option_and_then, IfOk, IfSome};
ghost use Rattle.serde_json.specs.Find.{as_array, as_str};
ghost use Rattle.serde_json.specs.View.{items_view, view};
ghost use Rattle.rr_model.specs.Graph.Members.{day_named, form_named, index_named, number_in, number_in_bounds};
ghost use Rattle.rr_model.specs.Graph.Reading.{days_in, days_of_names, first_day_in, form_in, if_used, index_in, interval_in, pattern_of};
ghost use Rattle.rr_model.specs.Graph.Uses.{bit_of, most_interval, uses_day_of_month, uses_days, uses_first_day, uses_index, uses_month};
ghost use Rattle.rr_model.specs.Graph.Validity.{IsValidPattern};
ghost use Rattle.rr_model.specs.declared.refusal.Member.TheVariants.{DayOfMonth, Month};

use crate::members::{find_member, is_named, number_in, number_within, text_in};
use rr_model::{Form, Member, Pattern, Refusal};
use serde_json::Value;

#[tactic(auto, unfolding(rr_model::specs::Graph::Members::form_named))]
fn form_named(name: &str) -> Option<Form>
    ensures { result ≡ form_named name.now }
{
    if is_named(name, "daily") {
        Some(Form::Daily)
    } else if is_named(name, "weekly") {
        Some(Form::Weekly)
    } else if is_named(name, "absoluteMonthly") {
        Some(Form::AbsoluteMonthly)
    } else if is_named(name, "relativeMonthly") {
        Some(Form::RelativeMonthly)
    } else if is_named(name, "absoluteYearly") {
        Some(Form::AbsoluteYearly)
    } else if is_named(name, "relativeYearly") {
        Some(Form::RelativeYearly)
    } else {
        None
    }
}

// A weekday, from 0 for Monday.
#[tactic(auto, unfolding(rr_model::specs::Graph::Members::day_named))]
fn day_named(name: &str) -> Option<u8>
    ensures value { result ≡ day_named name.now }
    ensures below { IfSome result (λ day. day < 7) }
{
    if is_named(name, "monday") {
        Some(0)
    } else if is_named(name, "tuesday") {
        Some(1)
    } else if is_named(name, "wednesday") {
        Some(2)
    } else if is_named(name, "thursday") {
        Some(3)
    } else if is_named(name, "friday") {
        Some(4)
    } else if is_named(name, "saturday") {
        Some(5)
    } else if is_named(name, "sunday") {
        Some(6)
    } else {
        None
    }
}

// Which of the days of a month, -1 for the last.
#[tactic(auto, unfolding(rr_model::specs::Graph::Members::index_named))]
fn index_named(name: &str) -> Option<i8>
    ensures { result ≡ index_named name.now }
{
    if is_named(name, "first") {
        Some(1)
    } else if is_named(name, "second") {
        Some(2)
    } else if is_named(name, "third") {
        Some(3)
    } else if is_named(name, "fourth") {
        Some(4)
    } else if is_named(name, "last") {
        Some(-1)
    } else {
        None
    }
}

#[tactic(auto, unfolding(rr_model::specs::Graph::Reading::form_in))]
fn form_in(pattern: &Value) -> Result<Form, Refusal>
    ensures { result ≡ form_in (view pattern.now) }
{
    text_in(pattern, "type")
        .and_then(form_named)
        .ok_or(Refusal::BadMember(Member::PatternType))
}

// The greatest interval of a type.
fn most_interval(form: Form) -> u64
    ensures value { result ≡ most_interval form }
    ensures few { result ≤ 999 }
{
    match form {
        Form::Daily | Form::Weekly => 999,
        _ => 99,
    }
}

#[tactic(auto, unfolding(rr_model::specs::Graph::Reading::interval_in))]
fn interval_in(form: Form, pattern: &Value) -> Result<u32, Refusal>
    ensures { result ≡ interval_in form (view pattern.now) }
{
    match number_in(pattern, "interval") {
        None | Some(0) => Err(Refusal::BadMember(Member::Interval)),
        Some(interval) if interval <= most_interval(form) => Ok(interval as u32),
        Some(_) => Err(Refusal::IntervalTooLarge),
    }
}

// The power of 2 that stands for a weekday.
fn bit_of(day: u8) -> u8
    requires { day < 7 }
    ensures { result ≡ bit_of day }
{
    1 << ((day + 1) % 7)
}

// The weekday that a value names.
fn day_of(name: &Value) -> Option<u8>
    ensures value { result ≡ option_and_then day_named (as_str (view name.now)) }
    ensures below { IfSome result (λ day. day < 7) }
{
    day_named(name.as_str()?)
}

// The sum of the days of at least one name.
fn days_of_names(names: &[Value]) -> Option<u8>
    ensures { result ≡ days_of_names (items_view names.now) }
{
    if names.is_empty() {
        return None;
    }
    let mut days = 0u8;
    for name in names {
        let day = day_of(name)?;
        days |= bit_of(day);
    }
    Some(days)
}

// The sum of the days of a value that lists names.
fn days_of(value: &Value) -> Option<u8>
    ensures { result ≡ option_and_then days_of_names (as_array (view value.now)) }
{
    days_of_names(value.as_array()?.as_slice())
}

#[tactic(auto, unfolding(rr_model::specs::Graph::Reading::days_in))]
fn days_in(form: Form, pattern: &Value) -> Result<u8, Refusal>
    ensures { result ≡ if_used (uses_days form) 0 (days_in (view pattern.now)) }
{
    match form {
        Form::Weekly | Form::RelativeMonthly | Form::RelativeYearly => {
            find_member(pattern, "daysOfWeek")
                .and_then(days_of)
                .ok_or(Refusal::BadMember(Member::DaysOfWeek))
        }
        _ => Ok(0),
    }
}

// The first weekday of a week, Sunday if the member is missing.
#[tactic(auto, unfolding(rr_model::specs::Graph::Reading::first_day_in))]
fn first_day_in(form: Form, pattern: &Value) -> Result<u8, Refusal>
    ensures { result ≡ if_used (uses_first_day form) 6 (first_day_in (view pattern.now)) }
{
    match form {
        Form::Weekly => match find_member(pattern, "firstDayOfWeek") {
            None => Ok(6),
            Some(name) => day_of(name).ok_or(Refusal::BadMember(Member::FirstDayOfWeek)),
        },
        _ => Ok(6),
    }
}

// The index that a value names.
fn index_of(name: &Value) -> Option<i8>
    ensures { result ≡ option_and_then index_named (as_str (view name.now)) }
{
    index_named(name.as_str()?)
}

// The index, the first if the member is missing.
#[tactic(auto, unfolding(rr_model::specs::Graph::Reading::index_in))]
fn index_in(form: Form, pattern: &Value) -> Result<i8, Refusal>
    ensures { result ≡ if_used (uses_index form) (pos 1) (index_in (view pattern.now)) }
{
    match form {
        Form::RelativeMonthly | Form::RelativeYearly => match find_member(pattern, "index") {
            None => Ok(1),
            Some(name) => index_of(name).ok_or(Refusal::BadMember(Member::Index)),
        },
        _ => Ok(1),
    }
}

// A number from 1 up to the most that the member of that name is.
fn small_number(pattern: &Value, member: Member, name: &str, most: u8) -> Result<u8, Refusal>
    ensures { result ≡ number_in_bounds member 1 most (number_in name.now (view pattern.now)) }
{
    let number = number_within(pattern, member, name, u64::from(most))?;
    Ok(number as u8)
}

fn day_of_month_in(form: Form, pattern: &Value) -> Result<u8, Refusal>
    ensures { result ≡ if_used (uses_day_of_month form) 0
        (number_in_bounds DayOfMonth 1 31 (number_in (codes "dayOfMonth") (view pattern.now))) }
{
    match form {
        Form::AbsoluteMonthly | Form::AbsoluteYearly => {
            small_number(pattern, Member::DayOfMonth, "dayOfMonth", 31)
        }
        _ => Ok(0),
    }
}

fn month_in(form: Form, pattern: &Value) -> Result<u8, Refusal>
    ensures { result ≡ if_used (uses_month form) 0
        (number_in_bounds Month 1 12 (number_in (codes "month") (view pattern.now))) }
{
    match form {
        Form::AbsoluteYearly | Form::RelativeYearly => {
            small_number(pattern, Member::Month, "month", 12)
        }
        _ => Ok(0),
    }
}

// The members of a pattern in the order of judgement.
#[tactic(auto, unfolding(rr_model::specs::Graph::Reading::pattern_of))]
fn members_in(pattern: &Value) -> Result<Pattern, Refusal>
    ensures { result ≡ pattern_of (view pattern.now) }
{
    let form = form_in(pattern)?;
    let interval = interval_in(form, pattern)?;
    let days = days_in(form, pattern)?;
    let first_day = first_day_in(form, pattern)?;
    let index = index_in(form, pattern)?;
    let day_of_month = day_of_month_in(form, pattern)?;
    let month = month_in(form, pattern)?;
    Ok(Pattern {
        form,
        interval,
        day_of_month,
        month,
        days,
        first_day,
        index,
    })
}

/// The pattern that the members of an object state (Microsoft Graph, recurrencePattern), or the first refusal in the
/// order of `read`. A member that is missing or null has its default.
pub(crate) fn pattern_in(pattern: &Value) -> Result<Pattern, Refusal>
    ensures value { result ≡ pattern_of (view pattern.now) }
    ensures valid { IfOk result IsValidPattern }
{
    members_in(pattern)
}
