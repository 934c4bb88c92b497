// In which zones the lines of an event state their moments (RFC 5545, sections 3.2.19 and 3.3.5).
ghost use Rattle.std.specs.Prelude.{◌≡◌, ◌<◌, ◌+◌, [], ◌∷◌, ◌++◌, ◌^◌, flat_map, length, map, option_map, option_to_list, IfOk, OnOk};
ghost use Rattle.rr_events.specs.Finding.{lines_in};
ghost use Rattle.rr_events.specs.Own.{own_lines};
ghost use Rattle.rr_icalfile.specs.Zones.{date_zones, event_zones, has_moment, has_utc, instance_zones, series_zones, start_zone, states_dates, states_moment, states_utc, value_on, zone_on};

use rr_events::{Piece, first_named, full_lines, own_lines, parameter_of};
use rr_ical::{line_kind, value_of_line};
use rr_model::{Bytes, Kind, Line, LineKind, LineName, NoMemory};
use rr_text::{basic, trim};
use std::alloc::Global;
use std::marker::Model;

/// Zones in the order in which they were put.
#[derive(Drop)]
pub struct ZoneList {
    zones: Vec<Bytes>,
}

impl Model for ZoneList {
    ghost use Rattle.std.specs.Prelude.{List, ℕ};

    ghost Value = { List (List ℕ) };

    ghost view = { λ z. z.zones.items };
}

impl ZoneList {
    /// No zone; it takes no memory.
    pub(crate) fn new(alloc: Global) -> ZoneList
        ensures { result ≡ [] }
    {
        ZoneList {
            zones: Vec::new(alloc),
        }
    }

    /// Puts a zone at the end, with its name in memory of its own.
    pub(crate) fn put(&mut self, alloc: Global, zone: &[u8]) -> Result<(), NoMemory>
        ensures { OnOk result (self.new ≡ self.old ++ zone.now ∷ []) }
    {
        self.zones.push(Bytes::of(alloc, zone)?)?;
        Ok(())
    }

    /// Puts several zones at the end, in their order.
    pub(crate) fn put_all(&mut self, alloc: Global, zones: &[Bytes]) -> Result<(), NoMemory>
        ensures { OnOk result (self.new ≡ self.old ++ zones.now) }
    {
        for zone in zones {
            self.put(alloc, zone.as_slice())?;
        }
        Ok(())
    }

    /// The zones in their order.
    pub(crate) fn into_items(self) -> Vec<Bytes>
        ensures { result.items ≡ self }
    {
        self.zones
    }

    /// The zones in their order.
    pub(crate) fn as_slice(&self) -> &[Bytes]
        ensures { result.now ≡ self.now }
    {
        self.zones.as_slice()
    }
}

// Whether a text states a moment of UTC.
fn states_utc(text: &[u8]) -> bool
    ensures { result ≡ states_utc text.now }
{
    match basic(trim(text)) {
        Some(stamp) => stamp.utc,
        None => false,
    }
}

// Whether a text states a moment, of UTC or of local time.
fn states_moment(text: &[u8]) -> bool
    ensures { result ≡ states_moment text.now }
{
    match basic(trim(text)) {
        Some(stamp) => stamp.kind == Kind::Moments,
        None => false,
    }
}

/// The value of a line, empty if it has none.
pub(crate) fn value_on(text: &[u8]) -> &[u8]
    ensures { result.now ≡ value_on text.now }
{
    value_of_line(text).unwrap_or(b"")
}

// Whether one of the values between commas is a moment of UTC.
fn has_utc(value: &[u8]) -> bool
    ensures { result ≡ has_utc value.now }
{
    value.split(|b| *b == b',').any(states_utc)
}

// Whether one of the values between commas is a moment.
fn has_moment(value: &[u8]) -> bool
    ensures { result ≡ has_moment value.now }
{
    value.split(|b| *b == b',').any(states_moment)
}

// The zone that a line states: `Z` if one of its values is a moment of UTC, otherwise its TZID parameter, if it has one.
fn zone_on(text: &[u8]) -> Option<&[u8]>
    ensures { option_map (λ zone. zone.now) result ≡ zone_on text.now }
{
    if has_utc(value_on(text)) {
        return Some(b"Z");
    }
    parameter_of(b"TZID", text)
}

// Puts the zone of a line, if it states one.
fn put_zone(alloc: Global, zones: &mut ZoneList, text: &[u8]) -> Result<(), NoMemory>
    ensures { OnOk result (zones.new ≡ zones.old ++ option_to_list (zone_on text.now)) }
{
    match zone_on(text) {
        Some(zone) => zones.put(alloc, zone),
        None => Ok(()),
    }
}

// The zone of a start, empty if it states none.
fn start_zone<'a>(own: &[&'a Line]) -> &'a [u8]
    ensures { result.now ≡ start_zone (map (λ line. line.now) own.now) }
{
    let Some(line) = first_named(b"DTSTART", own) else {
        return b"";
    };
    zone_on(line.text.as_slice()).unwrap_or(b"")
}

// Whether a line is RDATE or EXDATE and states moments.
fn states_dates(text: &[u8]) -> bool
    ensures { result ≡ states_dates text.now }
{
    match line_kind(text) {
        LineKind::Property(LineName::Rdate | LineName::Exdate) => has_moment(value_on(text)),
        _ => false,
    }
}

// Puts the zone of a line of RDATE or EXDATE, if it states one.
fn put_date_zone(alloc: Global, zones: &mut ZoneList, line: &Line) -> Result<(), NoMemory>
    ensures { OnOk result (zones.new ≡ zones.old ++ date_zones line.now) }
{
    if states_dates(line.text.as_slice()) {
        put_zone(alloc, zones, line.text.as_slice())?;
    }
    Ok(())
}

// Puts the zones of lines of RDATE and EXDATE.
fn put_date_zones(alloc: Global, zones: &mut ZoneList, own: &[&Line]) -> Result<(), NoMemory>
    ensures { OnOk result (zones.new
        ≡ zones.old ++ flat_map date_zones (map (λ line. line.now) own.now)) }
{
    for line in own {
        put_date_zone(alloc, zones, line)?;
    }
    Ok(())
}

// The zones of a series.
fn series_zones(alloc: Global, own: &[&Line]) -> Result<ZoneList, NoMemory>
    ensures { IfOk result (λ zones. zones ≡ series_zones (map (λ line. line.now) own.now)) }
{
    let mut zones = ZoneList::new(alloc);
    zones.put(alloc, start_zone(own))?;
    put_date_zones(alloc, &mut zones, own)?;
    Ok(zones)
}

// The zones of an instance, by its RECURRENCE-ID.
fn instance_zones(
    alloc: Global,
    is_cancelled: bool,
    recurrence: &Line,
    own: &[&Line],
) -> Result<ZoneList, NoMemory>
    ensures { IfOk result (λ zones. zones
        ≡ instance_zones is_cancelled recurrence.now (map (λ line. line.now) own.now)) }
{
    let mut zones = ZoneList::new(alloc);
    put_zone(alloc, &mut zones, recurrence.text.as_slice())?;
    if !is_cancelled {
        zones.put(alloc, start_zone(own))?;
    }
    Ok(zones)
}

/// The zones of an event with these own lines: that of its DTSTART, and those of its RDATE and EXDATE; of an instance those of
/// its RECURRENCE-ID and, unless it is cancelled, of its DTSTART. A line of UTC has the zone `Z`, another that of its TZID
/// parameter; a DTSTART without one has the empty zone, another line without one has none.
pub(crate) fn event_zones(
    alloc: Global,
    is_cancelled: bool,
    own: &[&Line],
) -> Result<ZoneList, NoMemory>
    ensures { IfOk result (λ zones. zones
        ≡ event_zones is_cancelled (map (λ line. line.now) own.now)) }
{
    match first_named(b"RECURRENCE-ID", own) {
        None => series_zones(alloc, own),
        Some(recurrence) => instance_zones(alloc, is_cancelled, recurrence, own),
    }
}

/// Reads the zones of the event of a piece as of a series.
#[tactic(auto, using(crate::proofs::FullLemmas::series_zones_full))]
pub(crate) fn read_series_zones(alloc: Global, piece: Piece) -> Result<ZoneList, NoMemory>
    requires { piece.first + length piece.text.now < 2 ^ 64 }
    ensures { IfOk result (λ zones. zones ≡ series_zones (own_lines [] (lines_in piece.entry))) }
{
    let lines = full_lines(alloc, piece)?;
    let own = own_lines(alloc, lines.as_slice())?;
    series_zones(alloc, &own)
}
