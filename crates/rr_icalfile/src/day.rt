// Dates beside a start with a time of day, read as the occurrences of their days (RFC 5545, sections 3.8.4.4 and 3.8.5.1).
ghost use Rattle.std.specs.Prelude.{◌≡◌, ◌++◌, flat_map, map, option_map, IfOk, OnOk};
ghost use Rattle.std.specs.List.{list_all, list_any, slice_split};
ghost use Rattle.rr_model.specs.Text.Calendars.{is_comma};
ghost use Rattle.rr_rule_parts.specs.Calendars.{calendar_scan};
ghost use Rattle.rr_seam.specs.Steps.{AnswersKey};
ghost use Rattle.rr_icalfile.specs.Days.{are_clear, has_clear_days, have_one_time, instance_with_time, is_mixed, is_other_time, is_unclear, is_unclear_instance, is_unclear_line, keeps_time, lines_with_time, own_time, read_days, reading_of, recurrence_with_time, scan_with_time, series_by_days, series_with_time, stated_day, value_line, with_time};

use crate::edit::{edited_with_series, start_line};
use crate::event::{Event, Recurrence};
use crate::gather::Gathered;
use crate::series::series_with_instances;
use rr_model::{
    Bytes, Fault, Kind, LineName, NoMemory, Refusal, Rule, Scan, Series, Used, UsedLine, day_part,
    second_part,
};
use rr_rrule::read_scan;
use rr_seam::{KeyFault, KeyRefusal};
use rr_text::{basic, trim};
use std::alloc::Global;

/// What is read of the events of a key.
#[derive(Drop)]
pub struct Reading {
    /// The series of the events, with its instances as dates.
    pub series: Series,
    /// Whether dates beside moments are read as the occurrences of their days.
    pub day: bool,
}

// ---- dates with a time of day

// The day that a text states, if it is a date.
fn stated_day(text: &[u8]) -> Option<i64>
    ensures { result ≡ stated_day text.now }
{
    let stamp = basic(trim(text))?;
    match stamp.kind {
        Kind::Days => Some(stamp.at),
        Kind::Moments => None,
    }
}

// A date with a time of day behind it; any other text stays.
fn with_time(alloc: Global, time: &[u8], text: &[u8]) -> Result<Bytes, NoMemory>
    ensures { IfOk result (λ made. made ≡ with_time time.now text.now) }
{
    if stated_day(text).is_none() {
        return Bytes::of(alloc, text);
    }
    let mut made = Bytes::of(alloc, trim(text))?;
    made.append(time)?;
    Ok(made)
}

// The time of day of the start as its line states it.
fn own_time(alloc: Global, event: &Event) -> Result<Bytes, NoMemory>
    ensures { IfOk result (λ time. time ≡ own_time event.now) }
{
    match start_line(event.scan.used.as_slice()) {
        None => Ok(Bytes::new(alloc)),
        Some(line) => Bytes::of(alloc, line.value.as_slice().get(8..).unwrap_or(b"")),
    }
}

// A line with one of its values alone.
fn value_line(
    alloc: Global,
    time: &[u8],
    line: &UsedLine,
    text: &[u8],
) -> Result<UsedLine, NoMemory>
    ensures { IfOk result (λ made. made ≡ value_line time.now line.now text.now) }
{
    Ok(UsedLine {
        number: line.number,
        name: line.name,
        value: with_time(alloc, time, text)?,
    })
}

// Puts a line for each of the values of an EXDATE.
fn put_values(
    alloc: Global,
    used: &mut Used,
    time: &[u8],
    line: &UsedLine,
    value: &[u8],
) -> Result<(), NoMemory>
    ensures { OnOk result (used.new
        ≡ used.old ++ map (value_line time.now line.now) (slice_split is_comma value.now)) }
{
    for text in value.split(|b| *b == b',') {
        used.put(value_line(alloc, time, line, text)?)?;
    }
    Ok(())
}

// A copy of a line, in memory of its own.
fn copy_line(alloc: Global, line: &UsedLine) -> Result<UsedLine, NoMemory>
    ensures { IfOk result (λ made. made ≡ line.now) }
{
    Ok(UsedLine {
        number: line.number,
        name: line.name,
        value: Bytes::of(alloc, line.value.as_slice())?,
    })
}

// Puts a used line with a time of day behind its dates.
fn put_lines(alloc: Global, used: &mut Used, time: &[u8], line: &UsedLine) -> Result<(), NoMemory>
    ensures { OnOk result (used.new ≡ used.old ++ lines_with_time time.now line.now) }
{
    match line.name {
        LineName::Exdate => put_values(alloc, used, time, line, line.value.as_slice()),
        _ => used.put(copy_line(alloc, line)?),
    }
}

// Used lines with a time of day behind the dates of EXDATE.
fn used_with_time(alloc: Global, time: &[u8], lines: &[UsedLine]) -> Result<Used, NoMemory>
    ensures { IfOk result (λ used. used ≡ flat_map (lines_with_time time.now) lines.now) }
{
    let mut used = Used::new(alloc);
    for line in lines {
        put_lines(alloc, &mut used, time, line)?;
    }
    Ok(used)
}

// A scan with a time of day behind the dates of EXDATE.
fn scan_with_time(alloc: Global, time: &[u8], scan: &Scan) -> Result<Scan, NoMemory>
    ensures { IfOk result (λ made. made ≡ scan_with_time time.now scan.now) }
{
    Ok(Scan {
        used: used_with_time(alloc, time, scan.used.as_slice())?,
        stop: scan.stop,
    })
}

// A RECURRENCE-ID with a time of day, if it is a date.
fn recurrence_with_time(
    alloc: Global,
    time: &[u8],
    recurrence: Option<Recurrence>,
) -> Result<Option<Recurrence>, NoMemory>
    ensures { IfOk result (λ made. made ≡ option_map (recurrence_with_time time.now) recurrence) }
{
    let Some(recurrence) = recurrence else {
        return Ok(None);
    };
    Ok(Some(Recurrence {
        line: recurrence.line,
        value: with_time(alloc, time, recurrence.value.as_slice())?,
        has_range: recurrence.has_range,
    }))
}

// An instance whose RECURRENCE-ID has a time of day, if it is a date.
fn instance_with_time(alloc: Global, time: &[u8], event: Event) -> Result<Event, NoMemory>
    ensures { IfOk result (λ made. made ≡ instance_with_time time.now event) }
{
    let recurrence = recurrence_with_time(alloc, time, event.recurrence)?;
    Ok(Event {
        recurrence,
        ..event
    })
}

// Instances whose RECURRENCE-IDs have a time of day.
fn instances_with_time(
    alloc: Global,
    time: &[u8],
    instances: Vec<Event>,
) -> Result<Vec<Event>, NoMemory>
    ensures { IfOk result (λ made. made.items ≡ map (instance_with_time time.now) instances.items) }
{
    let mut made = Vec::new(alloc);
    for event in instances {
        made.push(instance_with_time(alloc, time, event)?)?;
    }
    Ok(made)
}

// ---- days that name one time of day

// Whether a rule chooses no other time of day than that of its start.
fn keeps_time(rule: &Rule) -> bool
    ensures { result ≡ keeps_time rule.now }
{
    rule.freq.is_whole_days()
        && rule.by_hour.is_empty()
        && rule.by_minute.is_empty()
        && rule.by_second.is_empty()
}

// Whether each of these rules chooses no other time of day than that of its start.
fn keep_time(rules: &[Rule]) -> bool
    ensures { result ≡ list_all keeps_time rules.now }
{
    rules.iter().all(|rule| keeps_time(rule))
}

// Whether each rule and each excluded rule chooses the start's time of day alone.
fn have_one_time(series: &Series) -> bool
    ensures { result ≡ have_one_time series.now }
{
    keep_time(series.rules.as_slice()) && keep_time(series.excluded.as_slice())
}

// Whether a moment lies on a day, at another time of day than the start.
fn is_other_time(start: i64, day: i64, at: i64) -> bool
    ensures { result ≡ is_other_time start day at }
{
    day_part(Kind::Moments, at) == day
        && second_part(Kind::Moments, at) != second_part(Kind::Moments, start)
}

// Whether a text is a date of whose day an RDATE has another time of day than the start.
fn is_unclear(series: &Series, text: &[u8]) -> bool
    ensures { result ≡ is_unclear series.now text.now }
{
    match stated_day(text) {
        None => false,
        Some(day) => has_other_time(series.start, day, series.plus.as_slice()),
    }
}

// Whether one of these moments lies on a day, at another time of day than the start.
fn has_other_time(start: i64, day: i64, dates: &[i64]) -> bool
    ensures { result ≡ list_any (is_other_time start day) dates.now }
{
    dates.iter().any(|at| is_other_time(start, day, *at))
}

// Whether one of the values between commas is an unclear date.
fn has_unclear(series: &Series, value: &[u8]) -> bool
    ensures { result ≡ list_any (is_unclear series.now) (slice_split is_comma value.now) }
{
    value
        .split(|b| *b == b',')
        .any(|text| is_unclear(series, text))
}

// Whether an EXDATE has an unclear date.
fn is_unclear_line(series: &Series, line: &UsedLine) -> bool
    ensures { result ≡ is_unclear_line series.now line.now }
{
    match line.name {
        LineName::Exdate => has_unclear(series, line.value.as_slice()),
        _ => false,
    }
}

// Whether the RECURRENCE-ID of an instance is an unclear date.
fn is_unclear_instance(series: &Series, event: &Event) -> bool
    ensures { result ≡ is_unclear_instance series.now event.now }
{
    match &event.recurrence {
        None => false,
        Some(recurrence) => is_unclear(series, recurrence.value.as_slice()),
    }
}

// Whether one of these used lines has an unclear date.
fn has_unclear_line(series: &Series, lines: &[UsedLine]) -> bool
    ensures { result ≡ list_any (is_unclear_line series.now) lines.now }
{
    lines.iter().any(|line| is_unclear_line(series, line))
}

// Whether the RECURRENCE-ID of one of these instances is an unclear date.
fn has_unclear_instance(series: &Series, instances: &[Event]) -> bool
    ensures { result ≡ list_any (is_unclear_instance series.now) instances.now }
{
    instances
        .iter()
        .any(|event| is_unclear_instance(series, event))
}

// Whether no date of these used lines and instances is unclear.
fn are_clear(series: &Series, lines: &[UsedLine], instances: &[Event]) -> bool
    ensures { result ≡ are_clear series.now lines.now instances.now }
{
    !has_unclear_line(series, lines) && !has_unclear_instance(series, instances)
}

// Whether the series of a scan has on the days of these dates its start's time of day alone.
fn has_clear_days(
    alloc: Global,
    offset: Option<i32>,
    scan: &Scan,
    lines: &[UsedLine],
    instances: &[Event],
) -> Result<bool, NoMemory>
    ensures { IfOk result (λ b. b
        ≡ has_clear_days (calendar_scan offset scan.now) lines.now instances.now) }
{
    match read_scan(alloc, offset, scan) {
        Ok(series) => Ok(have_one_time(&series) && are_clear(&series, lines, instances)),
        Err(Fault::Refused(_)) => Ok(false),
        Err(Fault::NoMemory) => Err(NoMemory),
    }
}

// ---- the reading

// The series of an event and its instances whose dates have the time of day of its start, if these name it.
fn series_by_days(
    alloc: Global,
    offset: Option<i32>,
    event: Event,
    instances: Vec<Event>,
) -> Result<Option<Series>, NoMemory>
    ensures { IfOk result (λ series. series ≡ series_by_days offset event instances.items) }
{
    let time = own_time(alloc, &event)?;
    let scan = scan_with_time(alloc, time.as_slice(), &event.scan)?;
    if !has_clear_days(alloc, offset, &scan, event.scan.used.as_slice(), &instances)? {
        return Ok(None);
    }
    let event = Event { scan, ..event };
    let instances = instances_with_time(alloc, time.as_slice(), instances)?;
    match edited_with_series(alloc, offset, &event, &instances) {
        Ok(series) => Ok(Some(series)),
        Err(KeyFault::Refused(_)) => Ok(None),
        Err(KeyFault::NoMemory) => Err(NoMemory),
    }
}

// Whether a refusal is that of a date beside moments, or of a moment beside dates.
fn is_mixed(refusal: KeyRefusal) -> bool
    ensures { result ≡ is_mixed refusal }
{
    match refusal {
        KeyRefusal::Event {
            refusal: Refusal::MixedKinds(_),
            place: _,
        } => true,
        _ => false,
    }
}

// What is read of events that are refused.
fn read_days(
    alloc: Global,
    offset: Option<i32>,
    events: Gathered,
    refusal: KeyRefusal,
) -> Result<Reading, KeyFault>
    ensures { AnswersKey (read_days offset events.series events.instances refusal) result }
{
    if !is_mixed(refusal) {
        return Err(KeyFault::Refused(refusal));
    }
    let (series, instances) = events.into_parts();
    let Some(event) = series else {
        return Err(KeyFault::Refused(refusal));
    };
    match series_by_days(alloc, offset, event, instances)? {
        Some(series) => Ok(Reading { series, day: true }),
        None => Err(KeyFault::Refused(refusal)),
    }
}

/// What is read of the events of a key, with the refusals of `series_with_instances`.
///
/// If it is lenient, the events have a series, and the refusal is `MixedKinds`, then each EXDATE of the series and each
/// RECURRENCE-ID that is a date is read as that date with the time of day of the series' start, as its DTSTART states it. This reading
/// is taken if it is not refused itself, no RRULE or EXRULE has a frequency below a day, BYHOUR, BYMINUTE or BYSECOND, and no RDATE on
/// the day of such a date has another time of day than the start; otherwise the refusal stays.
pub(crate) fn read_key(
    alloc: Global,
    offset: Option<i32>,
    lenient: bool,
    events: Gathered,
) -> Result<Reading, KeyFault>
    ensures { AnswersKey (reading_of offset lenient events) result }
{
    match series_with_instances(alloc, offset, &events) {
        Ok(series) => Ok(Reading { series, day: false }),
        Err(KeyFault::Refused(refusal)) if lenient => read_days(alloc, offset, events, refusal),
        Err(fault) => Err(fault),
    }
}
