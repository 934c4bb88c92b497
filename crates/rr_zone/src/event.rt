// What an event states of its zone.
ghost use Rattle.std.specs.Prelude.{◌≡◌, Some, map, option_and_then, option_map, IfOk};
ghost use Rattle.rr_model.specs.Text.Moments.{basic};
ghost use Rattle.rr_model.specs.Text.UsedLines.{value_of_line};
ghost use Rattle.rr_zone.specs.Events.{event_facts, facts_of, start_by, start_in, start_on};

use rr_events::{first_named, first_value, own_lines, parameter_of};
use rr_ical::value_of_line;
use rr_model::{Bytes, Kind, Line, NoMemory, Stamp};
use rr_text::basic;
use std::alloc::Global;

/// In which zone a start is stated.
#[derive(Drop)]
pub(crate) enum Start {
    /// In UTC: its DTSTART ends in `Z`.
    Utc,
    /// In local time of the zone that its TZID parameter names.
    Zoned(Bytes),
    /// In none: it is local time without a zone or a date, or there is no start.
    Unzoned,
}

/// What an event states of its zone.
#[derive(Drop)]
pub(crate) struct EventFacts {
    /// Its UID, empty if it has none.
    pub(crate) uid: Bytes,
    /// In which zone its DTSTART is stated.
    pub(crate) start: Start,
    /// Whether it has a RECURRENCE-ID.
    pub(crate) is_instance: bool,
}

// Local time of the zone that a TZID parameter names, if there is one.
fn start_in(alloc: Global, name: Option<&[u8]>) -> Result<Start, NoMemory>
    ensures { IfOk result (λ start. start ≡ start_in (option_map (λ name. name.now) name.entry)) }
{
    match name {
        Some(name) => Ok(Start::Zoned(Bytes::of(alloc, name)?)),
        None => Ok(Start::Unzoned),
    }
}

// What a DTSTART line states whose value is this.
fn start_by(alloc: Global, text: &[u8], stamp: Stamp) -> Result<Start, NoMemory>
    ensures { IfOk result (λ start. start ≡ start_by text.now (Some stamp)) }
{
    if !stamp.kind.is_same(Kind::Moments) {
        return Ok(Start::Unzoned);
    }
    if stamp.utc {
        return Ok(Start::Utc);
    }
    start_in(alloc, parameter_of(b"TZID", text))
}

// The date value of a line, if it has one.
fn stamp_on(text: &[u8]) -> Option<Stamp>
    ensures { result ≡ option_and_then basic (value_of_line text.now) }
{
    basic(value_of_line(text)?)
}

// What a DTSTART line states, if there is one.
fn start_on(alloc: Global, line: Option<&Line>) -> Result<Start, NoMemory>
    ensures { IfOk result (λ start. start ≡ start_on (option_map (λ line. line.now) line.entry)) }
{
    let Some(line) = line else {
        return Ok(Start::Unzoned);
    };
    let text = line.text.as_slice();
    match stamp_on(text) {
        Some(stamp) => start_by(alloc, text, stamp),
        None => Ok(Start::Unzoned),
    }
}

// What the own lines of an event state of its zone.
fn facts_of(alloc: Global, own: &[&Line]) -> Result<EventFacts, NoMemory>
    ensures { IfOk result (λ facts. facts ≡ facts_of (map (λ line. line.now) own.now)) }
{
    Ok(EventFacts {
        uid: Bytes::of(alloc, first_value(b"UID", own))?,
        start: start_on(alloc, first_named(b"DTSTART", own))?,
        is_instance: first_named(b"RECURRENCE-ID", own).is_some(),
    })
}

/// What the lines of an event state of its zone.
pub(crate) fn event_facts(alloc: Global, lines: &[Line]) -> Result<EventFacts, NoMemory>
    ensures { IfOk result (λ facts. facts ≡ event_facts lines.now) }
{
    let own = own_lines(alloc, lines)?;
    facts_of(alloc, &own)
}
