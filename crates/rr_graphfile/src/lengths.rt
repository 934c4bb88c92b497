// How long the occurrences of a series are (Microsoft Graph, event: start, end, isAllDay and exceptionOccurrences).
ghost use Rattle.std.specs.Prelude.{◌≡◌, IfOk, codes, map, option_map};
ghost use Rattle.serde_json.specs.Find.{as_str};
ghost use Rattle.serde_json.specs.View.{view};
ghost use Rattle.rr_model.specs.Graph.Members.{member_of};
ghost use Rattle.rr_graphfile.specs.Lengths.{all_dated, dated_of, event_length, exceptions_of, is_same_text, is_same_zone};
ghost use Rattle.rr_graphfile.specs.Lengths.{length_between, lengths_of, moment_of, span_by, stamp_by};
ghost use Rattle.rr_graphfile.specs.Parsed.{turning_in};

use crate::item::{array_in, find_member, is_cancelled, repeats};
use crate::start::{is_all_day, moment_in};
use crate::turning::{Turning, start_offset};
use rr_graph::value_in;
use rr_length::{Dated, KeyLengths, Length, span_between};
use rr_model::{Kind, NoMemory, Stamp, day_part};
use serde_json::Value;
use std::alloc::Global;

// Whether two values are one text, byte by byte.
fn is_same_text(a: &Value, b: &Value) -> bool
    ensures { result ≡ is_same_text (as_str (view a.now)) (as_str (view b.now)) }
{
    match (a.as_str(), b.as_str()) {
        (Some(a), Some(b)) => a.as_bytes() == b.as_bytes(),
        _ => false,
    }
}

// Whether a start and an end are of one zone: neither states one, or both state one text.
fn is_same_zone(start: &Value, end: &Value) -> bool
    ensures { result ≡ is_same_zone (member_of (codes "timeZone") (view start.now))
        (member_of (codes "timeZone") (view end.now)) }
{
    match (find_member(start, "timeZone"), find_member(end, "timeZone")) {
        (None, None) => true,
        (Some(a), Some(b)) => is_same_text(a, b),
        _ => false,
    }
}

// A moment as it stands; of an event that is all day its date.
fn stamp_by(all_day: bool, stamp: Stamp) -> Stamp
    ensures { result ≡ stamp_by all_day stamp }
{
    if !all_day {
        return stamp;
    }
    Stamp {
        kind: Kind::Days,
        at: day_part(Kind::Moments, stamp.at),
        utc: stamp.utc,
    }
}

// From the moment of a start to that of an end.
fn span_by(all_day: bool, start: &Value, end: &Value) -> Option<Length>
    ensures { result ≡ span_by all_day (moment_of (view start.now)) (moment_of (view end.now)) }
{
    let from = moment_in(start, "dateTime")?;
    let to = moment_in(end, "dateTime")?;
    span_between(stamp_by(all_day, from), stamp_by(all_day, to))
}

// From a start to an end, which are of one zone.
fn length_between(all_day: bool, start: &Value, end: &Value) -> Option<Length>
    ensures { result ≡ length_between all_day (view start.now) (view end.now) }
{
    if !is_same_zone(start, end) {
        return None;
    }
    span_by(all_day, start, end)
}

// The length of an event, from its start to its end as both stand in the JSON: days if it is all day, otherwise seconds. `None`
// comes if one of the two is missing or has no moment that is read, if they are of two zones, and if the end comes before the start.
fn event_length(event: &Value) -> Option<Length>
    ensures { result ≡ event_length (view event.now) }
{
    let start = find_member(event, "start")?;
    let end = find_member(event, "end")?;
    length_between(is_all_day(event), start, end)
}

// The length of an instance, at its start among the occurrences of its series.
fn dated_of(turning: Turning, event: &Value) -> Option<Dated>
    ensures { result ≡ dated_of (turning_in turning.entry) (view event.now) }
{
    let length = event_length(event)?;
    match value_in(start_offset(turning, event), event) {
        Ok(read) => Some(Dated {
            at: read.start,
            length,
        }),
        Err(_) => None,
    }
}

// The lengths of instances that are not cancelled, if all can be told.
fn all_dated(
    alloc: Global,
    turning: Turning,
    exceptions: &[Value],
) -> Result<Option<Vec<Dated>>, NoMemory>
    ensures { IfOk result (λ dated. option_map (λ v. v.items) dated
        ≡ all_dated (turning_in turning.entry) (map view exceptions.now)) }
{
    let mut dated = Vec::new(alloc);
    for event in exceptions {
        if is_cancelled(event) {
            continue;
        }
        let Some(own) = dated_of(turning, event) else {
            return Ok(None);
        };
        dated.push(own)?;
    }
    Ok(Some(dated))
}

// The moved instances that an event lists, which only a series has.
fn exceptions_of(event: &Value) -> &[Value]
    ensures { map view result.now ≡ exceptions_of (view event.now) }
{
    if !repeats(event) {
        return &[];
    }
    array_in(event, "exceptionOccurrences").unwrap_or(&[])
}

/// The lengths of the occurrences of a series: usually its own, and of each instance that is moved and not cancelled that of the
/// instance, at its start as it is turned. They are `None` if one of them can't be told.
pub(crate) fn lengths_of(
    alloc: Global,
    turning: Turning,
    event: &Value,
) -> Result<Option<KeyLengths>, NoMemory>
    ensures { IfOk result (λ lengths. lengths ≡ lengths_of (turning_in turning.entry) (view event.now)) }
{
    let Some(usual) = event_length(event) else {
        return Ok(None);
    };
    match all_dated(alloc, turning, exceptions_of(event))? {
        None => Ok(None),
        Some(dated) => Ok(Some(KeyLengths::of(usual, dated))),
    }
}
