// What an event states of itself as part of a calendar (RFC 5545, sections 3.6.1 and 3.8.4.4).
ghost use Rattle.std.specs.Prelude.{◌≡◌, ◌<◌, ◌+◌, ◌^◌, length, map, IfOk};
ghost use Rattle.std.specs.List.{filter};
ghost use Rattle.rr_icalfile.specs.Event.{event_of, has_rule_or_date, is_cancelled, is_component_line, is_rule_or_date, recurrence_of, recurrence_on, used_in};
ghost use Rattle.rr_events.specs.Finding.{lines_in};

use crate::key::first_line;
use crate::zone::{ZoneList, event_zones};
use rr_events::{Piece, first_named, first_value, full_lines, own_lines, parameter_of};
use rr_ical::{line_kind, scan_lines, value_of_line};
use rr_length::{Length, event_length};
use rr_model::{Bytes, Line, LineKind, LineList, LineName, NoMemory, Scan, UsedLine};
use std::alloc::Global;

/// A RECURRENCE-ID, which makes an event an instance of a series (RFC 5545, section 3.8.4.4).
#[derive(Drop)]
pub struct Recurrence {
    /// The number of its line in the text, from 1.
    pub line: u64,
    /// Its value, empty if it has none.
    pub value: Bytes,
    /// Whether it has a RANGE parameter.
    pub has_range: bool,
}

/// What an event of a calendar states of itself.
#[derive(Drop)]
pub struct Event {
    /// The number of the line of its BEGIN in the text, from 1.
    pub first: u64,
    /// Its used lines; an instance that is cancelled is not read, and has none.
    pub scan: Scan,
    /// Its RECURRENCE-ID, if it is an instance.
    pub recurrence: Option<Recurrence>,
    /// Whether its STATUS is CANCELLED.
    pub is_cancelled: bool,
    /// The zones in which its lines state their moments.
    pub zones: ZoneList,
    /// How long it is by its own lines, if that can be told.
    pub length: Option<Length>,
}

// What a RECURRENCE-ID line states.
fn recurrence_on(alloc: Global, line: &Line) -> Result<Recurrence, NoMemory>
    ensures { IfOk result (λ recurrence. recurrence ≡ recurrence_on line.now) }
{
    let text = line.text.as_slice();
    let value = value_of_line(text).unwrap_or(b"");
    Ok(Recurrence {
        line: line.number,
        value: Bytes::of(alloc, value)?,
        has_range: parameter_of(b"RANGE", text).is_some(),
    })
}

/// The RECURRENCE-ID among the own lines of an event.
pub(crate) fn recurrence_of(alloc: Global, own: &[&Line]) -> Result<Option<Recurrence>, NoMemory>
    ensures { IfOk result (λ recurrence. recurrence
        ≡ recurrence_of (map (λ line. line.now) own.now)) }
{
    match first_named(b"RECURRENCE-ID", own) {
        None => Ok(None),
        Some(line) => Ok(Some(recurrence_on(alloc, line)?)),
    }
}

/// Whether the STATUS among the own lines of an event is CANCELLED (RFC 5545, section 3.8.1.11).
pub(crate) fn is_cancelled(own: &[&Line]) -> bool
    ensures { result ≡ is_cancelled (map (λ line. line.now) own.now) }
{
    first_value(b"STATUS", own).eq_ignore_ascii_case(b"CANCELLED")
}

// Whether a line begins or ends a component.
fn is_component_line(line: &Line) -> bool
    ensures { result ≡ is_component_line line.now }
{
    matches!(
        line_kind(line.text.as_slice()),
        LineKind::Begin | LineKind::End
    )
}

// The lines that begin and end components.
fn component_lines(alloc: Global, lines: LineList) -> Result<LineList, NoMemory>
    ensures { IfOk result (λ kept. kept ≡ filter is_component_line lines) }
{
    let mut kept = LineList::new(alloc);
    for line in lines.into_items() {
        if is_component_line(&line) {
            kept.put(line)?;
        }
    }
    Ok(kept)
}

// The used lines of an event; one that is not read has none.
fn used_in(alloc: Global, is_unread: bool, lines: LineList) -> Result<Scan, NoMemory>
    ensures { IfOk result (λ scan. scan ≡ used_in is_unread lines) }
{
    if is_unread {
        let lines = component_lines(alloc, lines)?;
        scan_lines(alloc, false, 0, lines)
    } else {
        scan_lines(alloc, false, 0, lines)
    }
}

// What the lines of an event state.
fn event_of(alloc: Global, lines: LineList) -> Result<Event, NoMemory>
    ensures { IfOk result (λ event. event ≡ event_of lines) }
{
    let first = first_line(lines.as_slice());
    let (recurrence, is_cancelled, zones, length) = {
        let own = own_lines(alloc, lines.as_slice())?;
        let is_cancelled = is_cancelled(&own);
        (
            recurrence_of(alloc, &own)?,
            is_cancelled,
            event_zones(alloc, is_cancelled, &own)?,
            event_length(&own),
        )
    };
    let is_unread = recurrence.is_some() && is_cancelled;
    Ok(Event {
        first,
        scan: used_in(alloc, is_unread, lines)?,
        recurrence,
        is_cancelled,
        zones,
        length,
    })
}

/// Reads what the lines of a piece state of its event.
#[tactic(auto, using(crate::proofs::FullLemmas::event_full))]
pub fn read_event(alloc: Global, piece: Piece) -> Result<Event, NoMemory>
    requires { piece.first + length piece.text.now < 2 ^ 64 }
    ensures { IfOk result (λ event. event ≡ event_of (lines_in piece.entry)) }
{
    let lines = full_lines(alloc, piece)?;
    event_of(alloc, lines)
}

// Whether a used line is RRULE or RDATE.
fn is_rule_or_date(line: &UsedLine) -> bool
    ensures { result ≡ is_rule_or_date line.now.name }
{
    matches!(line.name, LineName::Rrule | LineName::Rdate)
}

/// Whether an event has a rule or dates of its own.
pub fn has_rule_or_date(scan: &Scan) -> bool
    ensures { result ≡ has_rule_or_date scan.now }
{
    scan.used
        .as_slice()
        .iter()
        .any(|line| is_rule_or_date(line))
}
