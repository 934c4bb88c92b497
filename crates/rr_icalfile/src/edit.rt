// The series of a key with its instances as dates (RFC 5545, sections 3.8.4.4, 3.8.5.1 and 3.8.5.2).
ghost use Rattle.std.specs.Prelude.{◌≡◌, IfOk, option_map};
ghost use Rattle.rr_model.specs.Answers.{Answers};
ghost use Rattle.rr_model.specs.Moment.Years.{IsInYears};
ghost use Rattle.rr_seam.specs.Steps.{AnswersKey};
ghost use Rattle.rr_icalfile.specs.Edited.{edited_with_series, instance_beside, is_start, moment_of, shifts_of, stamp_on, start_beside, start_line, start_of, start_on, with_event_start, with_instance, with_start};

use crate::event::{Event, Recurrence};
use rr_ical::{Setting, date_beside, date_value};
use rr_model::{Fault, Kind, LineName, Refusal, Scan, Series, Stamp, UsedLine};
use rr_moved::{ShiftSets, moved};
use rr_rrule::read_scan;
use rr_seam::{KeyFault, at_event};
use std::alloc::Global;

// Whether a used line is DTSTART.
fn is_start(line: &UsedLine) -> bool
    ensures { result ≡ is_start line.now.name }
{
    matches!(line.name, LineName::Dtstart)
}

/// The first DTSTART of the used lines.
pub(crate) fn start_line(lines: &[UsedLine]) -> Option<&UsedLine>
    ensures { option_map (λ line. line.now) result ≡ start_line lines.now }
{
    for line in lines {
        if is_start(line) {
            return Some(line);
        }
    }
    None
}

/// The start of an event as its line states it.
pub(crate) fn stamp_of(scan: &Scan) -> Result<Stamp, Refusal>
    ensures value { result ≡ stamp_on (start_line scan.now.used) }
    ensures years { IfOk result (λ stamp. IsInYears stamp.kind stamp.at) }
{
    match start_line(scan.used.as_slice()) {
        None => Err(Refusal::NoStart),
        Some(line) => date_value(line.number, line.value.as_slice()),
    }
}

// A date or moment of an instance beside the start; local time beside a start in UTC is refused.
fn instance_beside(setting: Setting, line: u64, stamp: Stamp) -> Result<i64, Refusal>
    ensures { result ≡ instance_beside setting.offset setting.start line stamp }
{
    if stamp.kind == Kind::Moments && setting.start.utc && !stamp.utc {
        return Err(Refusal::UtcMoment);
    }
    date_beside(setting, line, stamp)
}

// The date or moment of a RECURRENCE-ID beside the start.
fn moment_of(setting: Setting, recurrence: &Recurrence) -> Result<i64, Refusal>
    ensures { result ≡ moment_of setting.offset setting.start recurrence.now }
{
    let stamp = date_value(recurrence.line, recurrence.value.as_slice())?;
    instance_beside(setting, recurrence.line, stamp)
}

/// The start on the DTSTART of an instance beside the start of its series.
pub(crate) fn start_on(setting: Setting, scan: &Scan) -> Result<i64, Refusal>
    ensures { result ≡ start_on setting.offset setting.start (start_line scan.now.used) }
{
    let Some(line) = start_line(scan.used.as_slice()) else {
        return Err(Refusal::NoStart);
    };
    let stamp = date_value(line.number, line.value.as_slice())?;
    instance_beside(setting, line.number, stamp)
}

// The start of an instance, which the reader takes, beside the start of its series.
fn start_beside(alloc: Global, setting: Setting, scan: &Scan) -> Result<i64, Fault>
    ensures { Answers (start_beside setting.offset setting.start scan.now) result }
{
    read_scan(alloc, setting.offset, scan)?;
    Ok(start_on(setting, scan)?)
}

// The start of an instance is put in, unless it is cancelled.
fn with_start(
    alloc: Global,
    setting: Setting,
    shifts: ShiftSets,
    event: &Event,
) -> Result<ShiftSets, Fault>
    ensures { Answers (with_start setting.offset setting.start shifts event.now) result }
{
    if event.is_cancelled {
        return match event.scan.stop {
            Some(refusal) => Err(Fault::Refused(refusal)),
            None => Ok(shifts),
        };
    }
    let at = start_beside(alloc, setting, &event.scan)?;
    Ok(shifts.put_in(at)?)
}

/// Puts in the start of a further instance, unless it is cancelled. A refusal names the instance.
pub(crate) fn with_event_start(
    alloc: Global,
    setting: Setting,
    shifts: ShiftSets,
    event: &Event,
) -> Result<ShiftSets, KeyFault>
    ensures { AnswersKey (with_event_start setting.offset setting.start shifts event.now) result }
{
    match with_start(alloc, setting, shifts, event) {
        Ok(shifts) => Ok(shifts),
        Err(fault) => Err(at_event(event.first, fault)),
    }
}

// Takes out the moment that a further instance names, and puts in its start.
fn with_instance(
    alloc: Global,
    setting: Setting,
    shifts: ShiftSets,
    event: &Event,
) -> Result<ShiftSets, KeyFault>
    ensures { AnswersKey (with_instance setting.offset setting.start shifts event.now) result }
{
    let Some(recurrence) = &event.recurrence else {
        return Ok(shifts);
    };
    let at = match moment_of(setting, recurrence) {
        Ok(at) => at,
        Err(refusal) => return Err(at_event(event.first, Fault::Refused(refusal))),
    };
    let shifts = shifts.take_out(event.first, at)?;
    with_event_start(alloc, setting, shifts, event)
}

// What instances take out and put in beside a start.
fn shifts_of(alloc: Global, setting: Setting, instances: &[Event]) -> Result<ShiftSets, KeyFault>
    ensures { AnswersKey (shifts_of setting.offset setting.start instances.now) result }
{
    let mut shifts = ShiftSets::new(alloc);
    for event in instances {
        shifts = with_instance(alloc, setting, shifts, event)?;
    }
    Ok(shifts)
}

// The start of a series, in UTC if its DTSTART states it so.
fn start_of(series: &Series, stamp: Stamp) -> Stamp
    ensures { result ≡ start_of series.now stamp }
{
    Stamp {
        kind: series.kind,
        at: series.start,
        utc: stamp.utc,
    }
}

/// A series with its instances.
pub(crate) fn edited_with_series(
    alloc: Global,
    offset: Option<i32>,
    event: &Event,
    instances: &[Event],
) -> Result<Series, KeyFault>
    ensures { AnswersKey (edited_with_series offset event.now instances.now) result }
{
    let series = match read_scan(alloc, offset, &event.scan) {
        Ok(series) => series,
        Err(fault) => return Err(at_event(event.first, fault)),
    };
    let stamp = match stamp_of(&event.scan) {
        Ok(stamp) => stamp,
        Err(refusal) => return Err(at_event(event.first, Fault::Refused(refusal))),
    };
    let start = start_of(&series, stamp);
    let shifts = shifts_of(alloc, Setting { offset, start }, instances)?;
    moved(alloc, event.is_cancelled, event.first, series, &shifts)
}
