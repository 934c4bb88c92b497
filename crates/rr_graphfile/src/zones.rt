// The names of the zones of a series (Microsoft Graph, dateTimeTimeZone, recurrenceRange).
ghost use Rattle.std.specs.Prelude.{◌≡◌, ◌++◌, IfOk, OnOk, map, option_and_then, codes, option_map};
ghost use Rattle.serde_json.specs.View.{view};
ghost use Rattle.rr_model.specs.Graph.Members.{text_in};
ghost use Rattle.rr_model.specs.Graph.Reading.{graph_moment};
ghost use Rattle.rr_graphfile.specs.Items.{has_mark, own_zone, range_zone, zone_at, zone_named, zone_of};
ghost use Rattle.rr_graphfile.specs.Parsed.{turning_in};
ghost use Rattle.rr_graphfile.specs.Stated.{day_zones, range_zones, zones_of, zones_of_exceptions};

use crate::item::{array_in, find_member, is_cancelled, text_in};
use crate::start::{is_all_day, moment_in};
use crate::turning::{Turning, turned_zone};
use rr_model::{Bytes, NoMemory};
use serde_json::Value;
use std::alloc::Global;

// A zone of this name, `Z` for UTC; the empty one if none is stated.
pub(crate) fn zone_named<'v>(zone: Option<&'v str>) -> &'v [u8]
    ensures { result.now ≡ zone_named (option_map (λ s. s.now) zone.entry) }
{
    match zone {
        Some(zone) if zone.eq_ignore_ascii_case("UTC") => b"Z",
        Some(zone) => zone.as_bytes(),
        None => b"",
    }
}

// Whether the moment of a start is one of UTC, as its `Z` says.
fn has_mark(start: &Value) -> bool
    ensures { result ≡ has_mark (option_and_then graph_moment
        (text_in (codes "dateTime") (view start.now))) }
{
    match moment_in(start, "dateTime") {
        Some(stamp) => stamp.utc,
        None => false,
    }
}

// The zone of a start.
fn zone_at(start: &Value) -> &[u8]
    ensures { result.now ≡ zone_at (view start.now) }
{
    if has_mark(start) {
        return b"Z";
    }
    zone_named(text_in(start, "timeZone"))
}

/// The zone that an event states; dates have none.
pub(crate) fn zone_of(event: &Value) -> &[u8]
    ensures { result.now ≡ zone_of (view event.now) }
{
    if is_all_day(event) {
        return b"";
    }
    match find_member(event, "start") {
        None => b"",
        Some(start) => zone_at(start),
    }
}

// The text of recurrenceTimeZone, empty if it is missing.
fn range_zone(event: &Value) -> &str
    ensures { result.now ≡ range_zone (view event.now) }
{
    let Some(recurrence) = find_member(event, "recurrence") else {
        return "";
    };
    let Some(range) = find_member(recurrence, "range") else {
        return "";
    };
    text_in(range, "recurrenceTimeZone").unwrap_or("")
}

/// The name of the event's own zone: that of its range, otherwise that in which it was made; empty if neither is stated.
pub(crate) fn own_zone(event: &Value) -> &str
    ensures { result.now ≡ own_zone (view event.now) }
{
    let name = range_zone(event);
    if !name.is_empty() {
        return name;
    }
    text_in(event, "originalStartTimeZone").unwrap_or("")
}

// Puts the zone of the days of a range, if it is stated.
fn put_range_zone(alloc: Global, zones: &mut Vec<Bytes>, zone: &str) -> Result<(), NoMemory>
    ensures { OnOk result (zones.new.items ≡ zones.old.items ++ range_zones zone.now) }
{
    if zone.is_empty() {
        return Ok(());
    }
    zones.push(Bytes::of(alloc, zone_named(Some(zone)))?)?;
    Ok(())
}

// Puts the zones of the days of a series; dates have none.
fn put_day_zones(alloc: Global, zones: &mut Vec<Bytes>, event: &Value) -> Result<(), NoMemory>
    ensures { OnOk result (zones.new.items ≡ zones.old.items ++ day_zones (view event.now)) }
{
    if is_all_day(event) {
        return Ok(());
    }
    put_range_zone(alloc, zones, range_zone(event))
}

// Puts the zones of moved instances, unless they are cancelled.
fn put_zones_of_exceptions(
    alloc: Global,
    zones: &mut Vec<Bytes>,
    turning: Turning,
    exceptions: &[Value],
) -> Result<(), NoMemory>
    ensures { OnOk result (zones.new.items
        ≡ zones.old.items ++ zones_of_exceptions (turning_in turning.entry) (map view exceptions.now)) }
{
    for event in exceptions {
        if !is_cancelled(event) {
            zones.push(Bytes::of(alloc, turned_zone(turning, event))?)?;
        }
    }
    Ok(())
}

/// The zones of a series: that of its start, that of its range, and those of its moved instances, which are turned as the start is.
pub(crate) fn zones_of(
    alloc: Global,
    turning: Turning,
    event: &Value,
) -> Result<Vec<Bytes>, NoMemory>
    ensures { IfOk result (λ zones. zones.items ≡ zones_of (turning_in turning.entry) (view event.now)) }
{
    let mut zones = Vec::new(alloc);
    zones.push(Bytes::of(alloc, turned_zone(turning, event))?)?;
    put_day_zones(alloc, &mut zones, event)?;
    let exceptions = array_in(event, "exceptionOccurrences").unwrap_or(&[]);
    put_zones_of_exceptions(alloc, &mut zones, turning, exceptions)?;
    Ok(zones)
}
