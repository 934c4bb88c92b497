// That `rr` compares local times, if the starts of two series state different zones (RFC 5545, sections 3.2.19 and 3.3.5).
ghost use Rattle.std.specs.Prelude.{◌≡◌, ◌<◌, ◌^◌, codes, option_map, IfOk};
ghost use Rattle.std.specs.Option.{is_some};
ghost use Rattle.rr_model.specs.Text.Event.{is_bare_text};
ghost use Rattle.rr_model.specs.Text.UsedLines.{is_named};
ghost use Rattle.rr_events.specs.Own.{first_named};
ghost use Rattle.rr_notes.specs.Starts.{are_same, have_two_zones, start_among, zone_by, zone_of, zone_on};
ghost use Rattle.rr_notes.specs.Visible.{IsVisibleIfSome};

use crate::again::bytes_again;
use crate::visible::{shown_bytes, visible};
use rr_events::{first_named, own_lines, parameter_of};
use rr_ical::{is_named, value_of_line};
use rr_model::{Bytes, Kind, Line, NoMemory, Stamp};
use rr_text::{basic, lines, without_mark};
use std::alloc::{AllocError, Global};

/// What a start that is a moment states of its zone.
#[derive(Drop)]
pub(crate) enum StartZone {
    /// It states that it is in UTC.
    Utc,
    /// It states the name of its zone.
    Named(Bytes),
    /// It states neither: local time of each observer.
    Floating,
}

// Whether no line of a text begins a component.
fn is_bare(lines: &[Line]) -> bool
    ensures { result ≡ is_bare_text lines.now }
{
    for line in lines {
        if is_named(line.text.as_slice(), b"BEGIN") {
            return false;
        }
    }
    true
}

// The first start among lines.
fn first_start(lines: &[Line]) -> Option<&Line>
    ensures { option_map (λ line. line.now) result ≡ first_named (codes "DTSTART") lines.now }
{
    for line in lines {
        if is_named(line.text.as_slice(), b"DTSTART") {
            return Some(line);
        }
    }
    None
}

// What a start with this text and this value states of its zone; nothing if it is a date.
fn zone_by(alloc: Global, text: &[u8], stamp: Stamp) -> Result<Option<StartZone>, NoMemory>
    ensures { IfOk result (λ zone. zone ≡ zone_by text.now stamp) }
{
    if !stamp.kind.is_same(Kind::Moments) {
        return Ok(None);
    }
    if stamp.utc {
        return Ok(Some(StartZone::Utc));
    }
    match parameter_of(b"TZID", text) {
        Some(name) => Ok(Some(StartZone::Named(Bytes::of(alloc, name)?))),
        None => Ok(Some(StartZone::Floating)),
    }
}

// What the line of a start states of its zone.
fn zone_on(alloc: Global, line: Option<&Line>) -> Result<Option<StartZone>, NoMemory>
    ensures { IfOk result (λ zone. zone ≡ zone_on (option_map (λ line. line.now) line.entry)) }
{
    let Some(line) = line else {
        return Ok(None);
    };
    let text = line.text.as_slice();
    let Some(value) = value_of_line(text) else {
        return Ok(None);
    };
    match basic(value) {
        Some(stamp) => zone_by(alloc, text, stamp),
        None => Ok(None),
    }
}

// What the start among the lines of a text states of its zone.
fn zone_among(alloc: Global, lines: &[Line]) -> Result<Option<StartZone>, NoMemory>
    ensures { IfOk result (λ zone. zone ≡ zone_on (start_among lines.now)) }
{
    if is_bare(lines) {
        return zone_on(alloc, first_start(lines));
    }
    let own = own_lines(alloc, lines)?;
    zone_on(alloc, first_named(b"DTSTART", own.as_slice()))
}

// What the start of a text states of its zone.
fn zone_of(alloc: Global, bytes: &[u8]) -> Result<Option<StartZone>, NoMemory>
    ensures { IfOk result (λ zone. zone ≡ zone_of bytes.now) }
{
    let lines = lines(alloc, without_mark(bytes), false)?;
    zone_among(alloc, lines.as_slice())
}

// Whether two starts state the same of their zones.
fn are_same(a: &StartZone, b: &StartZone) -> bool
    ensures { result ≡ are_same a.now b.now }
{
    match (a, b) {
        (StartZone::Utc, StartZone::Utc) => true,
        (StartZone::Named(a), StartZone::Named(b)) => a.as_slice() == b.as_slice(),
        (StartZone::Floating, StartZone::Floating) => true,
        _ => false,
    }
}

// What a start states of its zone, in words.
fn zone_text(alloc: Global, zone: &StartZone) -> Result<String, AllocError> {
    match zone {
        StartZone::Utc => format!(in alloc; "UTC"),
        StartZone::Named(name) => {
            let name = shown_bytes(alloc, name.as_slice())?;
            format!(in alloc; "the zone {name}")
        }
        StartZone::Floating => format!(in alloc; "no zone"),
    }
}

// That local times are compared, in words.
fn text_on_starts(alloc: Global, a: &StartZone, b: &StartZone) -> Result<String, AllocError> {
    let a = zone_text(alloc, a)?;
    let b = zone_text(alloc, b)?;
    format!(in alloc;
        "A states {a} and B {b}: rr compares local times, and 'rr-calendars OLD NEW' compares moments"
    )
}

/// That local times are compared: it comes exactly if both texts of RFC 5545 start with a moment, and what the two state of their zones
/// differs, each of which is UTC, the name of a zone, or neither.
pub fn note_on_starts(alloc: Global, a: &[u8], b: &[u8]) -> Result<Option<String>, NoMemory>
    ensures comes { IfOk result (λ note. is_some note ≡ have_two_zones a.now b.now) }
    ensures visible { IfOk result IsVisibleIfSome }
{
    let Some(zone_a) = zone_of(alloc, a)? else {
        return Ok(None);
    };
    let Some(zone_b) = zone_of(alloc, b)? else {
        return Ok(None);
    };
    if are_same(&zone_a, &zone_b) {
        return Ok(None);
    }
    let text = text_on_starts(alloc, &zone_a, &zone_b)?;
    Ok(Some(visible(alloc, text.as_bytes())?))
}

/// That local times of two files are compared, as `note_on_starts` says of their texts. The files are read again, as by
/// `bytes_again`. Nothing is noted if one of them is standard input, a pipe or a device, which can be read once.
pub fn note_on_starts_of_files(
    rt: &HostRuntime,
    name_a: &str,
    name_b: &str,
    limit: usize,
) -> Option<String>
    requires { limit < 2 ^ 62 }
    ensures { IsVisibleIfSome result }
{
    let a = bytes_again(rt, name_a, limit)?;
    let b = bytes_again(rt, name_b, limit)?;
    match note_on_starts(rt.alloc(), a.as_slice(), b.as_slice()) {
        Ok(note) => note,
        Err(_) => None,
    }
}
