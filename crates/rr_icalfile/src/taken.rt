// Which events of a key are taken (RFC 5545, sections 3.8.4.4 and 3.8.4.7).
ghost use Rattle.std.specs.Prelude.{◌≡◌, ◌++◌, false, map, All, IfOk, OnOk};
ghost use Rattle.rr_events.specs.Finding.{lines_in};
ghost use Rattle.rr_icalfile.specs.Calendar.{text_at, texts_at};
ghost use Rattle.rr_icalfile.specs.Event.{event_of};
ghost use Rattle.rr_icalfile.specs.Files.{IsNumberedPiece};
ghost use Rattle.rr_icalfile.specs.Parts.{lines_of};
ghost use Rattle.rr_icalfile.specs.Taken.{alone, alone_or_beside, first_series, has_two_series, is_series_alone, is_series_read, kept_of, once, series_words, states_again, taken};

use crate::event::{Event, has_rule_or_date, read_event};
use crate::part::Part;
use crate::words::read_series_words;
use crate::zone::read_series_zones;
use rr_events::Piece;
use rr_model::NoMemory;
use rr_seam::{EventWords, are_same_event};
use std::alloc::Global;

// Puts the event of an index, if there is one.
fn put_part<'a>(
    parts: &mut Vec<Part<'a>>,
    pieces: &[Piece<'a>],
    index: usize,
) -> Result<(), NoMemory>
    requires { All IsNumberedPiece pieces.now }
    ensures { OnOk result (map lines_of parts.new.items
        ≡ map lines_of parts.old.items ++ text_at (map lines_in pieces.now) index) }
{
    if let Some(piece) = pieces.get(index) {
        parts.push(Part { piece: *piece })?;
    }
    Ok(())
}

// The events of indexes, as parts of the text; an index beyond the last event adds nothing.
fn parts_at<'a>(
    alloc: Global,
    pieces: &[Piece<'a>],
    indexes: &[usize],
) -> Result<Vec<Part<'a>>, NoMemory>
    requires { All IsNumberedPiece pieces.now }
    ensures { IfOk result (λ parts. map lines_of parts.items
        ≡ texts_at (map lines_in pieces.now) indexes.now) }
{
    let mut parts = Vec::new(alloc);
    for index in indexes {
        put_part(&mut parts, pieces, *index)?;
    }
    Ok(parts)
}

// The events that stand in parts of a text, in their order.
fn events_of(alloc: Global, parts: &[Part]) -> Result<Vec<Event>, NoMemory>
    ensures { IfOk result (λ events. events.items ≡ map event_of (map lines_of parts.now)) }
{
    let mut events = Vec::new(alloc);
    for part in parts {
        events.push(read_event(alloc, part.piece)?)?;
    }
    Ok(events)
}

// ---- an event alone

// Whether an event calls itself one instance and has a rule or dates of its own.
fn is_series_alone(event: &Event) -> bool
    ensures { result ≡ is_series_alone event.now }
{
    match &event.recurrence {
        None => false,
        Some(recurrence) => !recurrence.has_range && has_rule_or_date(&event.scan),
    }
}

// An event that is alone under its key: the series, if it has a rule or dates of its own.
fn alone(alloc: Global, part: Part) -> Result<Event, NoMemory>
    ensures { IfOk result (λ event. event ≡ alone (lines_of part.entry)) }
{
    let mut event = read_event(alloc, part.piece)?;
    if is_series_alone(&event) {
        event.zones = read_series_zones(alloc, part.piece)?;
        event.recurrence = None;
    }
    Ok(event)
}

// Events of a key, one of which may be alone.
fn alone_or_beside(alloc: Global, parts: &[Part]) -> Result<Vec<Event>, NoMemory>
    ensures { IfOk result (λ events. events.items ≡ alone_or_beside (map lines_of parts.now)) }
{
    let [part] = parts else {
        return events_of(alloc, parts);
    };
    let mut events = Vec::new(alloc);
    events.push(alone(alloc, *part)?)?;
    Ok(events)
}

// ---- the same event twice

// Whether an event is a series.
fn is_series(event: &Event) -> bool
    ensures { result ≡ is_series_read event.now }
{
    event.recurrence.is_none()
}

// Whether two events are series.
fn has_two_series(events: &[Event]) -> bool
    ensures { result ≡ has_two_series false events.now }
{
    let mut has_one = false;
    for event in events {
        if is_series(event) {
            if has_one {
                return true;
            }
            has_one = true;
        }
    }
    false
}

// Whether a series, if it is one, states the first one again, if there is one.
fn states_again(first: &Option<EventWords>, words: &Option<EventWords>) -> bool
    ensures { result ≡ states_again first.now words.now }
{
    match (first, words) {
        (Some(first), Some(words)) => are_same_event(first, words),
        _ => false,
    }
}

// The first of two series.
fn first_series(first: Option<EventWords>, words: Option<EventWords>) -> Option<EventWords>
    ensures { result ≡ first_series first words }
{
    match first {
        Some(first) => Some(first),
        None => words,
    }
}

// Keeps an event, unless it states the first series again.
fn keep<'a>(kept: &mut Vec<Part<'a>>, is_again: bool, part: Part<'a>) -> Result<(), NoMemory>
    ensures { OnOk result (map lines_of kept.new.items
        ≡ map lines_of kept.old.items ++ kept_of is_again (lines_of part.entry)) }
{
    if !is_again {
        kept.push(part)?;
    }
    Ok(())
}

// Events but for those that state the first series again.
fn once<'a>(alloc: Global, parts: &[Part<'a>]) -> Result<Vec<Part<'a>>, NoMemory>
    ensures { IfOk result (λ kept. map lines_of kept.items ≡ once (map lines_of parts.now)) }
{
    let mut kept = Vec::new(alloc);
    let mut first = None;
    for part in parts {
        let words = read_series_words(alloc, part.piece)?;
        keep(&mut kept, states_again(&first, &words), *part)?;
        first = first_series(first, words);
    }
    Ok(kept)
}

// The events of a key as they are taken: a series that is stated twice counts once, and an event alone is the series if it has
// a rule or dates of its own, whatever instance it calls itself.
#[tactic(auto, using(crate::proofs::TakenLemmas::taken_by))]
fn taken(alloc: Global, parts: &[Part]) -> Result<Vec<Event>, NoMemory>
    ensures { IfOk result (λ events. events.items ≡ taken (map lines_of parts.now)) }
{
    let events = alone_or_beside(alloc, parts)?;
    if !has_two_series(&events) {
        return Ok(events);
    }
    let kept = once(alloc, parts)?;
    alone_or_beside(alloc, &kept)
}

/// The events of indexes as they are taken; an index beyond the last event adds nothing. A series that is stated twice counts once,
/// and an event alone is the series if it has a rule or dates of its own, whatever instance it calls itself. Words are read if two
/// of the events are series, and only then.
pub(crate) fn taken_at(
    alloc: Global,
    pieces: &[Piece],
    indexes: &[usize],
) -> Result<Vec<Event>, NoMemory>
    requires { All IsNumberedPiece pieces.now }
    ensures { IfOk result (λ events. events.items
        ≡ taken (texts_at (map lines_in pieces.now) indexes.now)) }
{
    let parts = parts_at(alloc, pieces, indexes)?;
    taken(alloc, &parts)
}
