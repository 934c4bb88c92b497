// The parts of a calendar text: its events, its time zones and what stands between these.
ghost use Rattle.std.specs.Prelude.{◌≡◌, map, All, IfOk};
ghost use Rattle.rr_model.specs.Text.Event.{is_event};
ghost use Rattle.rr_model.specs.Text.UsedLines.{value_of_line};
ghost use Rattle.rr_events.specs.Own.{value_or_empty};
ghost use Rattle.rr_events.specs.Segments.{section_in};
ghost use Rattle.rr_zone.specs.Parts.{IsNumberedPart, begun_name, component_content, content_of, part_in, part_of, zones_in};
ghost use Rattle.rr_zone.specs.Zones.{IsNumbered, raw_lines_in};

use crate::event::{EventFacts, event_facts};
use crate::full::full_lines;
use rr_events::{Piece, Segment, cut_line};
use rr_ical::{is_event, value_of_line};
use rr_model::{Line, NoMemory};
use std::alloc::Global;

/// What a part of a text is.
#[derive(Drop)]
pub(crate) enum Content {
    /// An event, and what it states of its zone.
    Event(EventFacts),
    /// A VTIMEZONE component, with its observances.
    Zone,
    /// What stands between events and time zones, as it is.
    Other,
}

/// A part of a text.
#[derive(Drop)]
pub(crate) struct Part<'a> {
    /// What it is: an event, a time zone, or neither.
    pub(crate) content: Content,
    /// Its bytes, and the number of its first physical line.
    pub(crate) piece: Piece<'a>,
}

// The value of a line, the empty text if it has none.
fn value_or_empty(line: &Line) -> &[u8]
    ensures { result.now ≡ value_or_empty (value_of_line line.now.text) }
{
    value_of_line(line.text.as_slice()).unwrap_or(b"")
}

/// Whether the component that a piece begins is an event.
pub fn begins_event(alloc: Global, piece: Piece) -> Result<bool, NoMemory>
    requires { IsNumbered piece }
    ensures { IfOk result (λ is. is ≡ is_event (begun_name (raw_lines_in piece.entry))) }
{
    let Some(cut) = cut_line(alloc, piece.text, piece.first)? else {
        return Ok(is_event(b""));
    };
    Ok(is_event(value_or_empty(&cut.line)))
}

// What a component is that is an event or a zone.
fn component_content(alloc: Global, piece: Piece) -> Result<Content, NoMemory>
    requires { IsNumbered piece }
    ensures { IfOk result (λ x. x ≡ component_content (raw_lines_in piece.entry)) }
{
    if !begins_event(alloc, piece)? {
        return Ok(Content::Zone);
    }
    let lines = full_lines(alloc, piece)?;
    Ok(Content::Event(event_facts(alloc, lines.as_slice())?))
}

// What a segment is: an event, a time zone, or neither.
fn content_of(alloc: Global, segment: Segment) -> Result<Content, NoMemory>
    requires { IsNumbered segment.piece }
    ensures { IfOk result (λ x. x ≡ content_of segment.entry.is_component (raw_lines_in segment.entry.piece)) }
{
    if segment.is_component {
        component_content(alloc, segment.piece)
    } else {
        Ok(Content::Other)
    }
}

/// The segments with what each is.
pub(crate) fn parts_of<'a>(
    alloc: Global,
    segments: &[Segment<'a>],
) -> Result<Vec<Part<'a>>, NoMemory>
    requires { All (λ segment. IsNumbered segment.piece) segments.now }
    ensures parts { IfOk result (λ parts. map part_in parts.items
        ≡ map part_of (map section_in segments.now)) }
    ensures numbered { IfOk result (λ parts. All IsNumberedPart parts.items) }
{
    let mut parts = Vec::new(alloc);
    for segment in segments {
        let segment = *segment;
        parts.push(Part {
            content: content_of(alloc, segment)?,
            piece: segment.piece,
        })?;
    }
    Ok(parts)
}

/// The zones among the parts.
pub(crate) fn zones_in<'a>(alloc: Global, parts: &[Part<'a>]) -> Result<Vec<Piece<'a>>, NoMemory>
    requires { All IsNumberedPart parts.now }
    ensures zones { IfOk result (λ zones. map raw_lines_in zones.items
        ≡ zones_in (map part_in parts.now)) }
    ensures numbered { IfOk result (λ zones. All IsNumbered zones.items) }
{
    let mut zones = Vec::new(alloc);
    for part in parts {
        if matches!(part.content, Content::Zone) {
            zones.push(part.piece)?;
        }
    }
    Ok(zones)
}
