// What the instances that a series lists take out and put in (Microsoft Graph, event, exceptionOccurrences and cancelledOccurrences).
ghost use Rattle.std.specs.Prelude.{◌≡◌, IfOk, codes, map, option_and_then, option_map};
ghost use Rattle.serde_json.specs.View.{view};
ghost use Rattle.rr_model.specs.Graph.Members.{text_in};
ghost use Rattle.rr_model.specs.Graph.Reading.{graph_moment};
ghost use Rattle.rr_model.specs.Graph.Validity.{IsValidGraphEvent};
ghost use Rattle.rr_model.specs.Moment.Years.{HasFourDigitYear, IsInYears};
ghost use Rattle.rr_model.specs.declared.kind.Kind.TheVariants.{Moments};
ghost use Rattle.rr_moved.specs.Moved.{AreInYears};
ghost use Rattle.rr_seam.specs.Steps.{AnswersKey, key_in_turn};
ghost use Rattle.rr_text.specs.Answers.{AnswersAs};
ghost use Rattle.rr_graphfile.specs.Parsed.{lists_of, turning_in};
ghost use Rattle.rr_graphfile.specs.Stated.{event_at, event_shifts, lists_in, moment_by_id, moment_by_offset, moment_in_utc, moment_near, moment_on};
ghost use Rattle.rr_graphfile.specs.Stated.{original_of, shifts_of, start_by, start_of, taken_out, with_cancelled, with_exception, with_start, with_start_of};

use crate::item::{array_in, instance_day, is_cancelled, repeats, text_in};
use crate::start::moment_in;
use crate::turning::{Turning, offset_in, start_offset};
use rr_graph::value_in;
use rr_model::{GraphEvent, Kind, Refusal, Repeat, day_part, moment_at, second_part};
use rr_moved::ShiftSets;
use rr_seam::{KeyFault, KeyRefusal};
use rr_text::later_in_years;
use serde_json::Value;
use std::alloc::Global;

/// Where instances are judged: beside the start of their series, whose event has this number in its list.
#[derive(Clone, Copy, Debug, PartialEq, Eq)]
pub(crate) struct Beside {
    /// The number of the series' event in its list, from 1.
    pub(crate) place: u64,
    /// Whether the series has dates or moments.
    pub(crate) kind: Kind,
    /// The start of the series, in days or seconds since 1970-01-01.
    pub(crate) start: i64,
}

/// The cancelled and the moved instances that a series lists.
#[derive(Clone, Copy)]
pub(crate) struct Lists<'v> {
    /// The ids of the cancelled ones.
    pub(crate) cancelled: &'v [Value],
    /// The events of the moved ones.
    pub(crate) exceptions: &'v [Value],
}

// The instances that an event lists. `NotExpanded` comes for a series that lacks one of the lists.
fn lists_in(place: u64, event: &Value) -> Result<Lists<'_>, KeyRefusal>
    ensures { AnswersAs lists_of (lists_in place (view event.now)) result }
{
    if !repeats(event) {
        return Ok(Lists {
            cancelled: &[],
            exceptions: &[],
        });
    }
    match (
        array_in(event, "cancelledOccurrences"),
        array_in(event, "exceptionOccurrences"),
    ) {
        (Some(cancelled), Some(exceptions)) => Ok(Lists {
            cancelled,
            exceptions,
        }),
        _ => Err(KeyRefusal::NotExpanded(place)),
    }
}

// The moment of an occurrence of a series on a day.
fn moment_on(beside: Beside, day: i64) -> i64
    requires { HasFourDigitYear day }
    ensures value { result ≡ moment_on beside.kind beside.start day }
    ensures years { IsInYears beside.kind result }
{
    moment_at(beside.kind, day, second_part(beside.kind, beside.start))
}

// The moment that the id of an instance names.
fn moment_by_id(beside: Beside, id: Option<&str>) -> Result<i64, KeyRefusal>
    ensures value { result ≡ moment_by_id beside.place beside.kind beside.start
        (option_map (λ s. s.now) id.entry) }
    ensures years { IfOk result (IsInYears beside.kind) }
{
    let Some(id) = id else {
        return Err(KeyRefusal::BadInstance(beside.place));
    };
    match instance_day(id) {
        None => Err(KeyRefusal::BadInstance(beside.place)),
        Some(day) => Ok(moment_on(beside, day)),
    }
}

// A cancelled instance is taken out.
fn with_cancelled(beside: Beside, shifts: ShiftSets, id: &Value) -> Result<ShiftSets, KeyFault>
    requires { AreInYears beside.kind shifts }
    ensures value { AnswersKey (with_cancelled beside.place beside.kind beside.start shifts
        (view id.now)) result }
    ensures years { IfOk result (AreInYears beside.kind) }
{
    let at = moment_by_id(beside, id.as_str())?;
    shifts.take_out(beside.place, at)
}

// The occurrence on the day on which a moment lies.
fn moment_near(beside: Beside, at: i64) -> i64
    requires { IsInYears Moments at }
    ensures value { result ≡ moment_near beside.kind beside.start at }
    ensures years { IsInYears beside.kind result }
{
    moment_on(beside, day_part(Kind::Moments, at))
}

// The moment at which an instance was to be, which is this one of UTC.
fn moment_by_offset(beside: Beside, at: i64, offset: Option<i32>) -> Result<i64, KeyRefusal>
    requires { IsInYears Moments at }
    ensures value { result ≡ moment_by_offset beside.place beside.kind beside.start at offset }
    ensures years { IfOk result (IsInYears beside.kind) }
{
    let Some(offset) = offset else {
        return Err(KeyRefusal::Event {
            refusal: Refusal::UtcMoment,
            place: beside.place,
        });
    };
    match later_in_years(at, offset) {
        None => Err(KeyRefusal::BadInstance(beside.place)),
        Some(at) => Ok(moment_near(beside, at)),
    }
}

// The moment at which an instance was to be, which is stated in UTC.
fn moment_in_utc(beside: Beside, turning: Turning, event: &Value) -> Result<i64, KeyRefusal>
    ensures value { result ≡ moment_in_utc (turning_in turning.entry) beside.place beside.kind
        beside.start (option_and_then graph_moment (text_in (codes "originalStart") (view event.now))) }
    ensures years { IfOk result (IsInYears beside.kind) }
{
    match moment_in(event, "originalStart") {
        None => Err(KeyRefusal::BadInstance(beside.place)),
        Some(stamp) => moment_by_offset(beside, stamp.at, offset_in(turning, stamp.at)),
    }
}

// The moment at which an instance was to be: by its id, and if that is missing by its originalStart.
fn original_of(beside: Beside, turning: Turning, event: &Value) -> Result<i64, KeyRefusal>
    ensures value { result ≡ original_of (turning_in turning.entry) beside.place beside.kind beside.start
        (view event.now) }
    ensures years { IfOk result (IsInYears beside.kind) }
{
    match text_in(event, "occurrenceId") {
        Some(id) => moment_by_id(beside, Some(id)),
        None => moment_in_utc(beside, turning, event),
    }
}

/// What an event states of itself, at this place.
pub(crate) fn event_at(
    turning: Turning,
    place: u64,
    event: &Value,
) -> Result<GraphEvent, KeyRefusal>
    ensures value { result ≡ event_at (turning_in turning.entry) place (view event.now) }
    ensures valid { IfOk result IsValidGraphEvent }
{
    match value_in(start_offset(turning, event), event) {
        Ok(read) => Ok(read),
        Err(refusal) => Err(KeyRefusal::Event { refusal, place }),
    }
}

// A start of the kind of the series, of an instance that has no pattern.
fn start_by(beside: Beside, event: &GraphEvent) -> Result<i64, KeyRefusal>
    requires { IsValidGraphEvent event.now }
    ensures value { result ≡ start_by beside.place beside.kind event.now event.now.repeat }
    ensures years { IfOk result (IsInYears beside.kind) }
{
    if let Repeat::Pattern { .. } = event.repeat {
        return Err(KeyRefusal::TwoSeries(beside.place));
    }
    match (event.kind, beside.kind) {
        (Kind::Days, Kind::Days) | (Kind::Moments, Kind::Moments) => Ok(event.start),
        _ => Err(KeyRefusal::Event {
            refusal: Refusal::MixedKinds(beside.place),
            place: beside.place,
        }),
    }
}

// The start of an instance beside its series.
fn start_of(beside: Beside, turning: Turning, event: &Value) -> Result<i64, KeyRefusal>
    ensures value { result ≡ start_of (turning_in turning.entry) beside.place beside.kind (view event.now) }
    ensures years { IfOk result (IsInYears beside.kind) }
{
    let read = event_at(turning, beside.place, event)?;
    start_by(beside, &read)
}

// The start of an instance is put in.
fn with_start_of(
    beside: Beside,
    turning: Turning,
    shifts: ShiftSets,
    event: &Value,
) -> Result<ShiftSets, KeyFault>
    requires { AreInYears beside.kind shifts }
    ensures value { AnswersKey (with_start_of (turning_in turning.entry) beside.place beside.kind shifts
        (view event.now)) result }
    ensures years { IfOk result (AreInYears beside.kind) }
{
    let start = start_of(beside, turning, event)?;
    Ok(shifts.put_in(start)?)
}

// The start of an instance is put in, unless it is cancelled.
fn with_start(
    beside: Beside,
    turning: Turning,
    shifts: ShiftSets,
    event: &Value,
) -> Result<ShiftSets, KeyFault>
    requires { AreInYears beside.kind shifts }
    ensures value { AnswersKey (with_start (turning_in turning.entry) beside.place beside.kind shifts
        (view event.now)) result }
    ensures years { IfOk result (AreInYears beside.kind) }
{
    if is_cancelled(event) {
        return Ok(shifts);
    }
    with_start_of(beside, turning, shifts, event)
}

// A moved instance is taken out.
fn taken_out(
    beside: Beside,
    turning: Turning,
    shifts: ShiftSets,
    event: &Value,
) -> Result<ShiftSets, KeyFault>
    requires { AreInYears beside.kind shifts }
    ensures value { AnswersKey (taken_out (turning_in turning.entry) beside.place beside.kind beside.start
        shifts (view event.now)) result }
    ensures years { IfOk result (AreInYears beside.kind) }
{
    let at = original_of(beside, turning, event)?;
    shifts.take_out(beside.place, at)
}

// A moved instance is taken out and put in.
fn with_exception(
    beside: Beside,
    turning: Turning,
    shifts: ShiftSets,
    event: &Value,
) -> Result<ShiftSets, KeyFault>
    requires { AreInYears beside.kind shifts }
    ensures value { AnswersKey (with_exception (turning_in turning.entry) beside.place beside.kind beside.start
        shifts (view event.now)) result }
    ensures years { IfOk result (AreInYears beside.kind) }
{
    let shifts = taken_out(beside, turning, shifts, event)?;
    with_start(beside, turning, shifts, event)
}

// The cancelled instances are taken out.
fn with_all_cancelled(
    beside: Beside,
    shifts: ShiftSets,
    ids: &[Value],
) -> Result<ShiftSets, KeyFault>
    requires { AreInYears beside.kind shifts }
    ensures value { AnswersKey (key_in_turn (with_cancelled beside.place beside.kind beside.start)
        shifts (map view ids.now)) result }
    ensures years { IfOk result (AreInYears beside.kind) }
{
    let mut shifts = shifts;
    for id in ids {
        shifts = with_cancelled(beside, shifts, id)?;
    }
    Ok(shifts)
}

// The moved instances are taken out and put in.
fn with_all_exceptions(
    beside: Beside,
    turning: Turning,
    shifts: ShiftSets,
    events: &[Value],
) -> Result<ShiftSets, KeyFault>
    requires { AreInYears beside.kind shifts }
    ensures value { AnswersKey (key_in_turn (with_exception (turning_in turning.entry) beside.place beside.kind
        beside.start) shifts (map view events.now)) result }
    ensures years { IfOk result (AreInYears beside.kind) }
{
    let mut shifts = shifts;
    for event in events {
        shifts = with_exception(beside, turning, shifts, event)?;
    }
    Ok(shifts)
}

// What the instances that a series lists take out and put in: the cancelled ones first.
fn shifts_of(
    alloc: Global,
    beside: Beside,
    turning: Turning,
    lists: Lists,
) -> Result<ShiftSets, KeyFault>
    ensures value { AnswersKey (shifts_of (turning_in turning.entry) beside.place beside.kind beside.start
        (lists_of lists.entry)) result }
    ensures years { IfOk result (AreInYears beside.kind) }
{
    let shifts = with_all_cancelled(beside, ShiftSets::new(alloc), lists.cancelled)?;
    with_all_exceptions(beside, turning, shifts, lists.exceptions)
}

/// What the instances that an event lists take out and put in.
pub(crate) fn event_shifts(
    alloc: Global,
    beside: Beside,
    turning: Turning,
    event: &Value,
) -> Result<ShiftSets, KeyFault>
    ensures value { AnswersKey (event_shifts (turning_in turning.entry) beside.place beside.kind beside.start
        (view event.now)) result }
    ensures years { IfOk result (AreInYears beside.kind) }
{
    let lists = lists_in(beside.place, event)?;
    shifts_of(alloc, beside, turning, lists)
}
