// The length of one event.
ghost use Rattle.std.specs.Prelude.{◌≡◌, map, option_map};
ghost use Rattle.rr_length.specs.Event.{count_named, end_length, event_length, is_same_text, is_same_zone, stamp_on};

use crate::duration::duration_of;
use crate::length::Length;
use crate::span::span_between;
use rr_events::{first_named, first_value, parameter_of};
use rr_ical::{is_named, value_of_line};
use rr_model::{Line, Stamp};
use rr_text::basic;

// How many lines have this name.
fn count_named(word: &[u8], own: &[&Line]) -> usize
    ensures { result ≡ count_named word.now (map (λ line. line.now) own.now) }
{
    own.iter()
        .filter(|line| is_named(line.text.as_slice(), word))
        .count()
}

// The date or moment that a line states, if it can be read.
fn stamp_on(line: &Line) -> Option<Stamp>
    ensures { result ≡ stamp_on line.now }
{
    basic(value_of_line(line.text.as_slice())?)
}

// Whether two texts are the same bytes, or neither is there.
fn is_same_text(a: Option<&[u8]>, b: Option<&[u8]>) -> bool
    ensures { result ≡ is_same_text (option_map (λ text. text.now) a.entry) (option_map (λ text. text.now) b.entry) }
{
    match (a, b) {
        (None, None) => true,
        (Some(a), Some(b)) => a == b,
        _ => false,
    }
}

// Whether two lines name one zone, or neither names one.
fn is_same_zone(a: &Line, b: &Line) -> bool
    ensures { result ≡ is_same_zone a.now b.now }
{
    is_same_text(
        parameter_of(b"TZID", a.text.as_slice()),
        parameter_of(b"TZID", b.text.as_slice()),
    )
}

// The length from the start on one line to the end on another.
fn end_length(start: &Line, end: &Line) -> Option<Length>
    ensures { result ≡ end_length start.now end.now }
{
    if !is_same_zone(start, end) {
        return None;
    }
    span_between(stamp_on(start)?, stamp_on(end)?)
}

/// The length of an event by its own lines, in iCalendar and in vCalendar 1.0 (RFC 5545, sections 3.6.1, 3.8.2.2 and 3.8.2.5). Its
/// start is that of the first DTSTART.
///
/// With one DTEND and no DURATION it is that from the start to the end, with one DURATION and no DTEND what that states, and with
/// neither one day of a date and nothing of a moment. `None` comes if one of these lines can't be read, if DTEND and DURATION both
/// stand there or one of them stands there twice, and for an end that `span_between` refuses or that has another TZID than the start,
/// byte by byte: the difference of local times of two zones would be no length.
pub fn event_length(own: &[&Line]) -> Option<Length>
    ensures { result ≡ event_length (map (λ line. line.now) own.now) }
{
    let line = first_named(b"DTSTART", own)?;
    let start = stamp_on(line)?;
    let ends = count_named(b"DTEND", own);
    let durations = count_named(b"DURATION", own);
    match (ends, durations) {
        (0, 0) => Some(Length::unstated(start.kind)),
        (1, 0) => end_length(line, first_named(b"DTEND", own)?),
        (0, 1) => duration_of(first_value(b"DURATION", own)),
        _ => None,
    }
}
