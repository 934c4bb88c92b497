// The zones that events of a text need and that can't be read.
ghost use Rattle.std.specs.Prelude.{◌≡◌, ◌++◌, [], List, None, map, if◌then◌else◌, All, IfOk, OnOk};
ghost use Rattle.rr_events.specs.Segments.{section_in};
ghost use Rattle.rr_zone.specs.Parts.{IsNumberedPart, events_in, part_in, part_of};
ghost use Rattle.rr_zone.specs.Series.{IsSeriesMap};
ghost use Rattle.rr_zone.specs.Unread.{needs_zone, unread_at, unread_by, unread_in, unread_named, unread_of, unread_of_parts, unread_zones, with_unread};
ghost use Rattle.rr_zone.specs.Zones.{IsNumbered, raw_lines_in};
ghost use Rattle.rr_zone.specs.declared.event.EventFacts.{EventFacts};

use crate::clock::Clock;
use crate::clocks::Clocks;
use crate::event::{EventFacts, Start};
use crate::part::{Content, Part, parts_of, zones_in};
use crate::rewritten::push_event;
use crate::series::{SeriesStarts, series_starts, turning_start};
use crate::zone::{Zone, ZoneFault};
use rr_events::{Piece, Segment, segments};
use rr_ical::Sought;
use rr_model::{Bytes, Fault, NoMemory};
use rr_text::without_mark;
use std::alloc::Global;

/// A zone that an event needs and that can't be read.
#[derive(Drop)]
pub struct UnreadZone {
    /// The name by which the event asks for it, its TZID.
    pub name: Bytes,
    /// Why it can't be read.
    pub fault: ZoneFault,
}

// Whether an event has a moment of UTC that a zone turns.
fn needs_zone(alloc: Global, is_instance: bool, piece: Piece) -> Result<bool, NoMemory>
    requires { IsNumbered piece }
    ensures { IfOk result (λ needs. needs ≡ needs_zone is_instance (raw_lines_in piece.entry)) }
{
    let mut clock = Clock::new(alloc, Zone::new(alloc))?;
    let mut out = Vec::new(alloc);
    let mut none = Clocks::new(alloc, Vec::new(alloc));
    push_event(
        alloc,
        &mut out,
        &mut clock,
        &mut none,
        Some(b""),
        is_instance,
        piece,
    )?;
    Ok(out.as_slice() != piece.text)
}

// The zone of this name, if it can't be read.
fn unread_named<'a>(
    alloc: Global,
    clocks: &mut Clocks<'a>,
    name: &[u8],
) -> Result<Option<UnreadZone>, NoMemory>
    ensures value { IfOk result (λ x. x ≡ unread_named clocks.old name.now) }
    ensures clocks { clocks.new ≡ clocks.old }
{
    match clocks.fault(alloc, name)? {
        Some(fault) => Ok(Some(UnreadZone {
            name: Bytes::of(alloc, name)?,
            fault,
        })),
        None => Ok(None),
    }
}

// The zone of a start, if it has one that can't be read.
fn unread_at<'a>(
    alloc: Global,
    clocks: &mut Clocks<'a>,
    start: &Start,
) -> Result<Option<UnreadZone>, NoMemory>
    ensures value { IfOk result (λ x. x ≡ unread_at clocks.old start.now) }
    ensures clocks { clocks.new ≡ clocks.old }
{
    match start {
        Start::Zoned(name) => unread_named(alloc, clocks, name.as_slice()),
        Start::Utc => Ok(None),
        Start::Unzoned => Ok(None),
    }
}

// The zone in which an event is written, if it can't be read.
fn unread_by<'a>(
    alloc: Global,
    clocks: &mut Clocks<'a>,
    series: &SeriesStarts<'a>,
    event: &'a EventFacts,
) -> Result<Option<UnreadZone>, NoMemory>
    ensures value { (events : List EventFacts) → IsSeriesMap series.now events
        → IfOk result (λ x. x ≡ unread_by clocks.old events event.now) }
    ensures clocks { clocks.new ≡ clocks.old }
{
    unread_at(alloc, clocks, turning_start(series, event))
}

// The zone that an event needs, if it can't be read.
fn unread_of_event<'a>(
    alloc: Global,
    clocks: &mut Clocks<'a>,
    series: &SeriesStarts<'a>,
    event: &'a EventFacts,
    piece: Piece,
) -> Result<Option<UnreadZone>, NoMemory>
    requires { IsNumbered piece }
    ensures value { (events : List EventFacts) → IsSeriesMap series.now events
        → IfOk result (λ x. x ≡ (if needs_zone event.now.is_instance (raw_lines_in piece.entry)
        then unread_by clocks.old events event.now else None)) }
    ensures clocks { clocks.new ≡ clocks.old }
{
    if !needs_zone(alloc, event.is_instance, piece)? {
        return Ok(None);
    }
    unread_by(alloc, clocks, series, event)
}

// The zone that a part needs, if it is an event and its zone can't be read.
fn unread_of<'a>(
    alloc: Global,
    clocks: &mut Clocks<'a>,
    series: &SeriesStarts<'a>,
    part: &'a Part,
) -> Result<Option<UnreadZone>, NoMemory>
    requires { IsNumberedPart part.now }
    ensures value { (events : List EventFacts) → IsSeriesMap series.now events
        → IfOk result (λ x. x ≡ unread_of clocks.old events part.now.content (raw_lines_in part.now.piece)) }
    ensures clocks { clocks.new ≡ clocks.old }
{
    match &part.content {
        Content::Event(event) => unread_of_event(alloc, clocks, series, event, part.piece),
        Content::Zone => Ok(None),
        Content::Other => Ok(None),
    }
}

// Puts a zone at the end, if there is one.
fn put(found: &mut Vec<UnreadZone>, unread: Option<UnreadZone>) -> Result<(), NoMemory>
    ensures { OnOk result (found.new.items ≡ found.old.items ++ with_unread unread []) }
{
    if let Some(unread) = unread {
        found.push(unread)?;
    }
    Ok(())
}

// The zones that parts need and that can't be read.
fn unread_in<'a>(
    alloc: Global,
    clocks: &mut Clocks<'a>,
    series: &SeriesStarts<'a>,
    parts: &'a [Part],
) -> Result<Vec<UnreadZone>, NoMemory>
    requires numbered { All IsNumberedPart parts.now }
    requires series { IsSeriesMap series.now (events_in (map part_in parts.now)) }
    ensures { IfOk result (λ found. found.items
        ≡ unread_in clocks.old (events_in (map part_in parts.now)) (map part_in parts.now)) }
{
    let mut found = Vec::new(alloc);
    for part in parts {
        let unread = unread_of(alloc, clocks, series, part)?;
        put(&mut found, unread)?;
    }
    Ok(found)
}

// The zones that the parts of a text need and that can't be read.
fn unread_of_parts(alloc: Global, parts: &[Part]) -> Result<Vec<UnreadZone>, NoMemory>
    requires { All IsNumberedPart parts.now }
    ensures { IfOk result (λ found. found.items ≡ unread_of_parts (map part_in parts.now)) }
{
    let series = series_starts(alloc, parts)?;
    let mut clocks = Clocks::new(alloc, zones_in(alloc, parts)?);
    unread_in(alloc, &mut clocks, &series, parts)
}

// The zones that events need and that can't be read, by the segments of a text.
fn unread_of_segments(alloc: Global, segments: &[Segment]) -> Result<Vec<UnreadZone>, NoMemory>
    requires { All (λ segment. IsNumbered segment.piece) segments.now }
    ensures { IfOk result (λ found. found.items ≡ unread_of_parts (map part_of (map section_in segments.now))) }
{
    let parts = parts_of(alloc, segments)?;
    unread_of_parts(alloc, parts.as_slice())
}

/// The zones that events of a text need for their moments of UTC and that can't be read, one for each such event, in the order of
/// the events. A text whose components are at fault has none.
#[tactic(auto, unfolding(crate::specs::Unread::unread_zones))]
pub fn unread_zones(alloc: Global, bytes: &[u8]) -> Result<Vec<UnreadZone>, NoMemory>
    ensures { IfOk result (λ found. found.items ≡ unread_zones bytes.now) }
{
    let text = without_mark(bytes);
    match segments(alloc, Sought::EventsAndZones, Piece { text, first: 1 }) {
        Ok(segments) => unread_of_segments(alloc, segments.as_slice()),
        Err(Fault::Refused(_)) => Ok(Vec::new(alloc)),
        Err(Fault::NoMemory) => Err(NoMemory),
    }
}
