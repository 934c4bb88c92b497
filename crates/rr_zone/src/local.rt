// A calendar text with its moments of UTC in local time.
ghost use Rattle.std.specs.Prelude.{◌≡◌, ◌≤◌, ◌<◌, ◌+◌, ◌||◌, drop, false, length, List, take, map, option_map, All, IfOk, OnOk};
ghost use Rattle.rr_events.specs.Segments.{section_in};
ghost use Rattle.rr_text.specs.Appending.{Appends};
ghost use Rattle.rr_zone.specs.Local.{begins_zone, has_zone, is_turned_part, local_of_parts, local_part, local_parts, local_text, mentions_zone};
ghost use Rattle.rr_zone.specs.Parts.{IsNumberedPart, events_in, part_in, part_of};
ghost use Rattle.rr_zone.specs.Series.{IsSeriesMap};
ghost use Rattle.rr_zone.specs.declared.event.EventFacts.{EventFacts};
ghost use Rattle.rr_zone.specs.Zones.{IsNumbered};

use crate::clocks::{Clocks, TextClocks, push_piece};
use crate::line::before;
use crate::part::{Content, Part, parts_of, zones_in};
use crate::series::{SeriesStarts, series_starts, turning_start};
use memchr::memchr2;
use rr_events::{Piece, Segment, segments};
use rr_ical::{Sought, is_same_name};
use rr_model::{Fault, NoMemory};
use rr_text::without_mark;
use std::alloc::Global;

// The first nine bytes of a text, or all.
fn front(text: &[u8]) -> &[u8]
    ensures { result.now ≡ take 9 text.now }
{
    if text.len() < 9 { text } else { &text[..9] }
}

// Whether a text begins with the name of a zone's component.
fn begins_zone(text: &[u8]) -> bool
    ensures { result ≡ begins_zone text.now }
{
    is_same_name(front(text), b"VTIMEZONE")
}

// What stands behind the first `count` bytes.
fn rest_from(text: &[u8], count: usize) -> &[u8]
    requires { count ≤ length text.now }
    ensures { result.now ≡ drop count text.now }
{
    &text[count..]
}

// What stands behind the byte at an index.
fn behind(text: &[u8], index: usize) -> &[u8]
    requires { index < length text.now }
    ensures { result.now ≡ drop (index + 1) text.now }
{
    &text[index + 1..]
}

// Whether the name of a zone's component stands somewhere in a text. Only places with its first letter are looked at.
fn mentions_zone(text: &[u8]) -> bool
    ensures { result ≡ mentions_zone text.now }
{
    let mut rest = text;
    while let Some(index) = memchr2(b'V', b'v', rest) {
        if begins_zone(rest_from(rest, index)) {
            return true;
        }
        rest = behind(rest, index);
    }
    false
}

// The bytes of a part with its moments in the zone in which it is written, and whether it is turned.
fn push_part<'a>(
    alloc: Global,
    out: &mut Vec<u8>,
    clocks: &mut TextClocks<'a>,
    series: &SeriesStarts<'a>,
    part: &'a Part,
) -> Result<bool, NoMemory>
    requires { IsNumberedPart part.now }
    ensures value { (events : List EventFacts) → IsSeriesMap series.now events
        → OnOk result (Appends out.old out.new (local_part clocks.old events (part_in part.now))) }
    ensures turned { (events : List EventFacts) → IsSeriesMap series.now events
        → IfOk result (λ turned. turned ≡ is_turned_part clocks.old events part.now.content) }
    ensures clocks { clocks.new ≡ clocks.old }
{
    match &part.content {
        Content::Event(event) => {
            let start = turning_start(series, event);
            clocks.push_event(alloc, out, start, event.is_instance, part.piece)
        }
        Content::Zone => push_piece(out, part.piece),
        Content::Other => push_piece(out, part.piece),
    }
}

fn either(a: bool, b: bool) -> bool
    ensures { result ≡ (a || b) }
{
    a || b
}

// The bytes of the parts in a row, and whether one is turned.
fn push_parts<'a>(
    alloc: Global,
    out: &mut Vec<u8>,
    clocks: &mut TextClocks<'a>,
    series: &SeriesStarts<'a>,
    parts: &'a [Part],
) -> Result<bool, NoMemory>
    requires numbered { All IsNumberedPart parts.now }
    requires series { IsSeriesMap series.now (events_in (map part_in parts.now)) }
    ensures value { OnOk result (Appends out.old out.new
        (local_parts clocks.old (events_in (map part_in parts.now)) (map part_in parts.now))) }
    ensures turned { IfOk result (λ turned. turned
        ≡ has_zone clocks.old (events_in (map part_in parts.now)) (map part_in parts.now)) }
{
    let mut has_zone = false;
    for part in parts {
        let is_turned = push_part(alloc, out, clocks, series, part)?;
        has_zone = either(has_zone, is_turned);
    }
    Ok(has_zone)
}

// The text by its parts, if some event has a zone.
fn local_of_parts(alloc: Global, mark: &[u8], parts: &[Part]) -> Result<Option<Vec<u8>>, NoMemory>
    requires { All IsNumberedPart parts.now }
    ensures { IfOk result (λ text. option_map (λ bytes. bytes.items) text
        ≡ local_of_parts mark.now (map part_in parts.now)) }
{
    let series = series_starts(alloc, parts)?;
    let mut clocks = TextClocks::new(
        Clocks::new(alloc, zones_in(alloc, parts)?),
        Clocks::new(alloc, zones_in(alloc, parts)?),
    );
    let mut out = Vec::new(alloc);
    out.extend_from_slice(mark)?;
    if push_parts(alloc, &mut out, &mut clocks, &series, parts)? {
        Ok(Some(out))
    } else {
        Ok(None)
    }
}

// The text by its segments, if some event has a zone.
fn local_of_segments(
    alloc: Global,
    mark: &[u8],
    segments: &[Segment],
) -> Result<Option<Vec<u8>>, NoMemory>
    requires { All (λ segment. IsNumbered segment.piece) segments.now }
    ensures { IfOk result (λ text. option_map (λ bytes. bytes.items) text
        ≡ local_of_parts mark.now (map part_of (map section_in segments.now))) }
{
    let parts = parts_of(alloc, segments)?;
    local_of_parts(alloc, mark, parts.as_slice())
}

/// The text with the moments of each event in the zone of its series: one of UTC beside a local start in local time of the start's
/// zone, and a local time of another zone in that of the start, or in UTC beside a start in UTC, if the text defines the zones. None if
/// it defines none that an event names, and has none beside an event in UTC.
///
/// The moments are those of UNTIL, EXDATE, RDATE and RECURRENCE-ID and the start of an instance. All other bytes stay, and each line
/// keeps its number. A text whose components are at fault is None, as is one in which VTIMEZONE stands nowhere in one piece.
#[tactic(auto, unfolding(crate::specs::Local::local_text))]
pub fn local_text(alloc: Global, bytes: &[u8]) -> Result<Option<Vec<u8>>, NoMemory>
    ensures { IfOk result (λ text. option_map (λ bytes. bytes.items) text
        ≡ local_text bytes.now) }
{
    let text = without_mark(bytes);
    if !mentions_zone(text) {
        return Ok(None);
    }
    match segments(alloc, Sought::EventsAndZones, Piece { text, first: 1 }) {
        Ok(segments) => local_of_segments(alloc, before(bytes, text), segments.as_slice()),
        Err(Fault::Refused(_)) => Ok(None),
        Err(Fault::NoMemory) => Err(NoMemory),
    }
}
