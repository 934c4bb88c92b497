// The JSON of patterns and ranges (Microsoft Graph, recurrencePattern and recurrenceRange).
ghost use Rattle.std.specs.Prelude.{◌≡◌, [], IfOk, OnOk, codes, map};
ghost use Rattle.serde_json.specs.Data.{array, number, object, put as with_member, string, unsigned};
ghost use Rattle.serde_json.specs.View.{items_of, members_view, view};
ghost use Rattle.rr_graph.specs.PatternJson.{absolute_monthly_json, absolute_yearly_json, daily_json, relative_monthly_json, relative_yearly_json, start_json, weekly_json};
ghost use Rattle.rr_model.specs.Graph.Text.{day_names, event_data, pattern_data, range_data, recurrence_data};
ghost use Rattle.rr_model.specs.Graph.Validity.{IsRangeEnd};
ghost use Rattle.rr_model.specs.Moment.Years.{HasFourDigitYear, IsInYears};
ghost use Rattle.rr_model.specs.Text.Moments.{extended_date_text, extended_text};
ghost use Rattle.rr_model.specs.declared.kind.Kind.TheVariants.{Moments};

use crate::names::{day_name, day_names, index_name};
use rr_model::{Form, Kind, NoMemory, Pattern, Range, RangeEnd};
use rr_text::push_extended;
use serde_json::{Map, Value, put};
use std::alloc::{AllocError, Global};

// Puts a member that is a text.
fn put_text(
    alloc: Global,
    members: &mut Map<String, Value>,
    name: &str,
    text: &str,
) -> Result<(), AllocError>
    ensures { OnOk result (members_view members.new.entries
        ≡ with_member name.now (string text.now) (members_view members.old.entries)) }
{
    let value = Value::try_from_str(alloc, text)?;
    put(members, alloc, name, value)
}

// Puts a member that is a number.
fn put_number(
    alloc: Global,
    members: &mut Map<String, Value>,
    name: &str,
    count: u64,
) -> Result<(), AllocError>
    ensures { OnOk result (members_view members.new.entries
        ≡ with_member name.now (number (unsigned count)) (members_view members.old.entries)) }
{
    put(members, alloc, name, Value::from(count))
}

// Puts the names of the days of a sum.
fn put_days(alloc: Global, members: &mut Map<String, Value>, days: u8) -> Result<(), AllocError>
    ensures { OnOk result (members_view members.new.entries
        ≡ with_member (codes "daysOfWeek") (array (items_of (map string (day_names days))))
        (members_view members.old.entries)) }
{
    let names = day_names(alloc, days)?;
    put(members, alloc, "daysOfWeek", Value::Array(names))
}

fn put_daily(
    alloc: Global,
    members: &mut Map<String, Value>,
    interval: u32,
) -> Result<(), AllocError>
    requires { members.old.entries ≡ [] }
    ensures { OnOk result (object (members_view members.new.entries) ≡ daily_json interval) }
{
    put_number(alloc, members, "interval", u64::from(interval))?;
    put_text(alloc, members, "type", "daily")
}

fn put_weekly(
    alloc: Global,
    members: &mut Map<String, Value>,
    interval: u32,
    days: u8,
    first_day: u8,
) -> Result<(), AllocError>
    requires { members.old.entries ≡ [] }
    ensures { OnOk result
        (object (members_view members.new.entries) ≡ weekly_json interval days first_day) }
{
    put_days(alloc, members, days)?;
    put_text(alloc, members, "firstDayOfWeek", day_name(first_day))?;
    put_number(alloc, members, "interval", u64::from(interval))?;
    put_text(alloc, members, "type", "weekly")
}

fn put_absolute_monthly(
    alloc: Global,
    members: &mut Map<String, Value>,
    interval: u32,
    day: u8,
) -> Result<(), AllocError>
    requires { members.old.entries ≡ [] }
    ensures { OnOk result
        (object (members_view members.new.entries) ≡ absolute_monthly_json interval day) }
{
    put_number(alloc, members, "dayOfMonth", u64::from(day))?;
    put_number(alloc, members, "interval", u64::from(interval))?;
    put_text(alloc, members, "type", "absoluteMonthly")
}

fn put_relative_monthly(
    alloc: Global,
    members: &mut Map<String, Value>,
    interval: u32,
    days: u8,
    index: i8,
) -> Result<(), AllocError>
    requires { members.old.entries ≡ [] }
    ensures { OnOk result
        (object (members_view members.new.entries) ≡ relative_monthly_json interval days index) }
{
    put_days(alloc, members, days)?;
    put_text(alloc, members, "index", index_name(index))?;
    put_number(alloc, members, "interval", u64::from(interval))?;
    put_text(alloc, members, "type", "relativeMonthly")
}

fn put_absolute_yearly(
    alloc: Global,
    members: &mut Map<String, Value>,
    interval: u32,
    day: u8,
    month: u8,
) -> Result<(), AllocError>
    requires { members.old.entries ≡ [] }
    ensures { OnOk result
        (object (members_view members.new.entries) ≡ absolute_yearly_json interval day month) }
{
    put_number(alloc, members, "dayOfMonth", u64::from(day))?;
    put_number(alloc, members, "interval", u64::from(interval))?;
    put_number(alloc, members, "month", u64::from(month))?;
    put_text(alloc, members, "type", "absoluteYearly")
}

fn put_relative_yearly(
    alloc: Global,
    members: &mut Map<String, Value>,
    interval: u32,
    days: u8,
    index: i8,
    month: u8,
) -> Result<(), AllocError>
    requires { members.old.entries ≡ [] }
    ensures { OnOk result (object (members_view members.new.entries)
        ≡ relative_yearly_json interval days index month) }
{
    put_days(alloc, members, days)?;
    put_text(alloc, members, "index", index_name(index))?;
    put_number(alloc, members, "interval", u64::from(interval))?;
    put_number(alloc, members, "month", u64::from(month))?;
    put_text(alloc, members, "type", "relativeYearly")
}

// Puts the members that the type of a pattern uses.
#[tactic(auto, unfolding(rr_model::specs::Graph::Text::form_text))]
fn put_pattern(
    alloc: Global,
    members: &mut Map<String, Value>,
    pattern: &Pattern,
) -> Result<(), AllocError>
    requires { members.old.entries ≡ [] }
    ensures { OnOk result (object (members_view members.new.entries) ≡ pattern_data pattern.now) }
{
    let Pattern {
        form,
        interval,
        day_of_month,
        month,
        days,
        first_day,
        index,
    } = *pattern;
    match form {
        Form::Daily => put_daily(alloc, members, interval),
        Form::Weekly => put_weekly(alloc, members, interval, days, first_day),
        Form::AbsoluteMonthly => put_absolute_monthly(alloc, members, interval, day_of_month),
        Form::RelativeMonthly => put_relative_monthly(alloc, members, interval, days, index),
        Form::AbsoluteYearly => put_absolute_yearly(alloc, members, interval, day_of_month, month),
        Form::RelativeYearly => put_relative_yearly(alloc, members, interval, days, index, month),
    }
}

// The object that states a pattern.
fn pattern_value(alloc: Global, pattern: &Pattern) -> Result<Value, AllocError>
    ensures { IfOk result (λ value. view value ≡ pattern_data pattern.now) }
{
    let mut members = Map::new(alloc);
    put_pattern(alloc, &mut members, pattern)?;
    Ok(Value::Object(members))
}

// A date YYYY-MM-DD, or a moment YYYY-MM-DDTHH:MM:SS.
fn time_value(alloc: Global, kind: Kind, at: i64) -> Result<Value, NoMemory>
    requires { IsInYears kind at }
    ensures { IfOk result (λ value. view value ≡ string (extended_text kind at)) }
{
    let mut bytes = Vec::new(alloc);
    push_extended(&mut bytes, kind, at)?;
    let Ok(text) = std::str::from_utf8(bytes.as_slice()) else {
        unreachable!();
    };
    Ok(Value::try_from_str(alloc, text)?)
}

#[tactic(auto, unfolding(rr_model::specs::Text::Moments::extended_text))]
fn date_value(alloc: Global, day: i64) -> Result<Value, NoMemory>
    requires { HasFourDigitYear day }
    ensures { IfOk result (λ value. view value ≡ string (extended_date_text day)) }
{
    time_value(alloc, Kind::Days, day)
}

// Puts a member that is a date.
fn put_date(
    alloc: Global,
    members: &mut Map<String, Value>,
    name: &str,
    day: i64,
) -> Result<(), NoMemory>
    requires { HasFourDigitYear day }
    ensures { OnOk result (members_view members.new.entries
        ≡ with_member name.now (string (extended_date_text day)) (members_view members.old.entries)) }
{
    let date = date_value(alloc, day)?;
    put(members, alloc, name, date)?;
    Ok(())
}

// Puts the members that the type of a range uses.
fn put_range(alloc: Global, members: &mut Map<String, Value>, range: &Range) -> Result<(), NoMemory>
    requires empty { members.old.entries ≡ [] }
    requires start { HasFourDigitYear range.now.start_day }
    requires end { IsRangeEnd range.now.end }
    ensures { OnOk result (object (members_view members.new.entries)
        ≡ range_data range.now.end range.now.start_day) }
{
    put_date(alloc, members, "startDate", range.start_day)?;
    match range.end {
        RangeEnd::NoEnd => Ok(put_text(alloc, members, "type", "noEnd")?),
        RangeEnd::EndDate(day) => {
            put_date(alloc, members, "endDate", day)?;
            Ok(put_text(alloc, members, "type", "endDate")?)
        }
        RangeEnd::Numbered(count) => {
            put_number(alloc, members, "numberOfOccurrences", count)?;
            Ok(put_text(alloc, members, "type", "numbered")?)
        }
    }
}

// The object that states a range.
fn range_value(alloc: Global, range: &Range) -> Result<Value, NoMemory>
    requires start { HasFourDigitYear range.now.start_day }
    requires end { IsRangeEnd range.now.end }
    ensures { IfOk result (λ value. view value ≡ range_data range.now.end range.now.start_day) }
{
    let mut members = Map::new(alloc);
    put_range(alloc, &mut members, range)?;
    Ok(Value::Object(members))
}

// Puts a pattern and its range.
fn put_recurrence(
    alloc: Global,
    members: &mut Map<String, Value>,
    pattern: &Pattern,
    range: &Range,
) -> Result<(), NoMemory>
    requires empty { members.old.entries ≡ [] }
    requires start { HasFourDigitYear range.now.start_day }
    requires end { IsRangeEnd range.now.end }
    ensures { OnOk result
        (object (members_view members.new.entries) ≡ recurrence_data pattern.now range.now) }
{
    let pattern = pattern_value(alloc, pattern)?;
    put(members, alloc, "pattern", pattern)?;
    let range = range_value(alloc, range)?;
    put(members, alloc, "range", range)?;
    Ok(())
}

// A pattern and its range.
fn recurrence_value(alloc: Global, pattern: &Pattern, range: &Range) -> Result<Value, NoMemory>
    requires start { HasFourDigitYear range.now.start_day }
    requires end { IsRangeEnd range.now.end }
    ensures { IfOk result (λ value. view value ≡ recurrence_data pattern.now range.now) }
{
    let mut members = Map::new(alloc);
    put_recurrence(alloc, &mut members, pattern, range)?;
    Ok(Value::Object(members))
}

// The start of an event of moments.
fn start_value(alloc: Global, at: i64) -> Result<Value, NoMemory>
    requires { IsInYears Moments at }
    ensures { IfOk result (λ value. view value ≡ start_json (string (extended_text Moments at))) }
{
    let moment = time_value(alloc, Kind::Moments, at)?;
    let mut members = Map::new(alloc);
    put(&mut members, alloc, "dateTime", moment)?;
    Ok(Value::Object(members))
}

// Puts the members of an event of moments.
fn put_event(
    alloc: Global,
    members: &mut Map<String, Value>,
    at: i64,
    pattern: &Pattern,
    range: &Range,
) -> Result<(), NoMemory>
    requires empty { members.old.entries ≡ [] }
    requires years { IsInYears Moments at }
    requires start { HasFourDigitYear range.now.start_day }
    requires end { IsRangeEnd range.now.end }
    ensures { OnOk result
        (object (members_view members.new.entries) ≡ event_data Moments at pattern.now range.now) }
{
    put(members, alloc, "isAllDay", Value::Bool(false))?;
    let recurrence = recurrence_value(alloc, pattern, range)?;
    put(members, alloc, "recurrence", recurrence)?;
    let start = start_value(alloc, at)?;
    put(members, alloc, "start", start)?;
    Ok(())
}

// A series of moments as an event.
fn moments_value(
    alloc: Global,
    at: i64,
    pattern: &Pattern,
    range: &Range,
) -> Result<Value, NoMemory>
    requires years { IsInYears Moments at }
    requires start { HasFourDigitYear range.now.start_day }
    requires end { IsRangeEnd range.now.end }
    ensures { IfOk result (λ value. view value ≡ event_data Moments at pattern.now range.now) }
{
    let mut members = Map::new(alloc);
    put_event(alloc, &mut members, at, pattern, range)?;
    Ok(Value::Object(members))
}

/// A series of dates as a bare recurrence, and one of moments as an event.
pub(crate) fn event_value(
    alloc: Global,
    kind: Kind,
    at: i64,
    pattern: &Pattern,
    range: &Range,
) -> Result<Value, NoMemory>
    requires years { IsInYears kind at }
    requires start { HasFourDigitYear range.now.start_day }
    requires end { IsRangeEnd range.now.end }
    ensures { IfOk result (λ value. view value ≡ event_data kind at pattern.now range.now) }
{
    match kind {
        Kind::Days => recurrence_value(alloc, pattern, range),
        Kind::Moments => moments_value(alloc, at, pattern, range),
    }
}
