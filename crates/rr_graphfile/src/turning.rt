// By what the moments of UTC of an event are turned (Microsoft Graph, event: originalStartTimeZone; RFC 5545, section 3.3.5).
ghost use Rattle.std.specs.Prelude.{◌≡◌, ◌+ℤ◌, IfSome};
ghost use Rattle.serde_json.specs.View.{view};
ghost use Rattle.rr_model.specs.Moment.Years.{IsInYears};
ghost use Rattle.rr_model.specs.declared.kind.Kind.TheVariants.{Moments};
ghost use Rattle.rr_true.specs.Changes.{IsBelowDay, offset_of};
ghost use Rattle.rr_true.specs.Moments.{local_at};
ghost use Rattle.rr_true.specs.Near.{IsNear};
ghost use Rattle.rr_graphfile.specs.Known.{known_meaning};
ghost use Rattle.rr_graphfile.specs.Parsed.{ahead_in, turning_in};
ghost use Rattle.rr_graphfile.specs.Turning.{is_named, is_named_in, is_utc, offset_in, start_offset, turned_zone, turning_name, turning_of};

use crate::known::{ZoneMap, known_offsets};
use crate::start::utc_start;
use crate::zones::{own_zone, zone_named, zone_of};
use rr_true::Offsets;
use serde_json::Value;

/// By what the moments of UTC of an event are turned.
#[derive(Clone, Copy)]
pub(crate) struct Turning<'z> {
    /// The name of its zone, empty if none turns it.
    pub(crate) name: &'z str,
    /// How far local time of the zone is ahead of UTC, if that is known.
    pub(crate) zone: Option<&'z Offsets>,
    /// Local time less UTC in seconds, if it is stated.
    pub(crate) stated: Option<i32>,
}

// How far local time of a zone is ahead of a moment of UTC.
fn ahead_at(zone: &Offsets, at: i64) -> i32
    requires { IsInYears Moments at }
    ensures value { result ≡ offset_of zone.now at }
    ensures below { IsBelowDay result }
{
    zone.at(at)
}

// Local time at a moment, by how far it is ahead.
fn local_by(at: i64, offset: i32) -> i64
    requires near { IsNear at }
    requires below { IsBelowDay offset }
    ensures { result ≡ at +ℤ offset }
{
    at + i64::from(offset)
}

// Local time of a zone at a moment of UTC.
fn local_in(zone: &Offsets, at: i64) -> i64
    requires { IsInYears Moments at }
    ensures local { result ≡ local_at (offset_of zone.now) at }
    ensures near { IsNear result }
{
    local_by(at, ahead_at(zone, at))
}

// Whether local time of a zone names a moment of UTC.
fn is_named(zone: &Offsets, at: i64) -> bool
    requires { IsInYears Moments at }
    ensures { result ≡ is_named (offset_of zone.now) at }
{
    zone.is_offset();
    zone.true_moment(local_in(zone, at)) == at
}

// Whether local time of a zone names a moment of UTC; false if the zone is not known.
fn is_named_in(zone: Option<&Offsets>, at: i64) -> bool
    requires { IsInYears Moments at }
    ensures { result ≡ is_named_in (ahead_in zone.entry) at }
{
    match zone {
        Some(zone) => is_named(zone, at),
        None => false,
    }
}

/// By how much a moment of UTC is turned, in seconds; None if it is not.
pub(crate) fn offset_in(turning: Turning, at: i64) -> Option<i32>
    requires { IsInYears Moments at }
    ensures { result ≡ offset_in (turning_in turning.entry) at }
{
    match turning.zone {
        Some(zone) if is_named(zone, at) => Some(ahead_at(zone, at)),
        _ => turning.stated,
    }
}

/// By how much the start of an event is turned, in seconds; None if it is not.
pub(crate) fn start_offset(turning: Turning, event: &Value) -> Option<i32>
    ensures { result ≡ start_offset (turning_in turning.entry) (view event.now) }
{
    let at = utc_start(event)?;
    offset_in(turning, at)
}

/// The zone of an event: that which turns it, otherwise the one that it states.
pub(crate) fn turned_zone<'z>(turning: Turning<'z>, event: &'z Value) -> &'z [u8]
    ensures { result.now ≡ turned_zone (turning_in turning.entry) (view event.now) }
{
    match utc_start(event) {
        Some(at) if is_named_in(turning.zone, at) => turning.name.as_bytes(),
        _ => zone_of(event),
    }
}

// Whether a name is one of UTC.
fn is_utc(name: &str) -> bool
    ensures { result ≡ is_utc name.now }
{
    zone_named(Some(name)) == b"Z".as_slice()
}

/// The name of the zone that turns an event; empty if none does.
pub(crate) fn turning_name(event: &Value) -> &str
    ensures { result.now ≡ turning_name (view event.now) }
{
    let name = own_zone(event);
    if utc_start(event).is_none() || is_utc(name) {
        ""
    } else {
        name
    }
}

/// By what the moments of UTC of an event are turned, by what is known of zones and a stated offset.
pub(crate) fn turning_of<'z>(
    zones: &'z ZoneMap,
    offset: Option<i32>,
    event: &'z Value,
) -> Turning<'z>
    ensures { turning_in result ≡ turning_of (known_meaning zones.now) offset (view event.now) }
{
    let name = turning_name(event);
    Turning {
        name,
        zone: known_offsets(zones, name),
        stated: offset,
    }
}
