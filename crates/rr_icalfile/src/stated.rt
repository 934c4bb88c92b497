// What the events of a key state together (RFC 5545, sections 3.8.4.4 and 3.8.5).
ghost use Rattle.std.specs.Prelude.{◌≡◌, ◌++◌, map, All, IfOk, OnOk};
ghost use Rattle.rr_events.specs.Finding.{lines_in};
ghost use Rattle.rr_seam.specs.Stated.{AnswersStated};
ghost use Rattle.rr_icalfile.specs.Calendar.{first_of, marks_of_day, stated_by, text_at, texts_at, title_at, words_in, zones_in, zones_of_all};
ghost use Rattle.rr_icalfile.specs.Files.{IsNumberedPiece};
ghost use Rattle.rr_icalfile.specs.Words.{event_words};

use crate::alone::first_number;
use crate::day::read_key;
use crate::event::Event;
use crate::gather::{Gathered, gather};
use crate::lengths::lengths_of;
use crate::taken::taken_at;
use crate::title::read_title;
use crate::words::read_words;
use crate::zone::ZoneList;
use rr_events::Piece;
use rr_model::{Bytes, NoMemory};
use rr_seam::{EventWords, KeyFault, KeySeries, KeyWords, Language, Marks};
use std::alloc::Global;

// Puts the zones of several events.
fn put_all_zones(alloc: Global, zones: &mut ZoneList, events: &[Event]) -> Result<(), NoMemory>
    ensures { OnOk result (zones.new ≡ zones.old ++ zones_of_all events.now) }
{
    for event in events {
        zones.put_all(alloc, event.zones.as_slice())?;
    }
    Ok(())
}

// The zones of the events of a key, those of its series first.
fn zones_of(alloc: Global, events: &Gathered) -> Result<ZoneList, NoMemory>
    ensures { IfOk result (λ zones. zones ≡ zones_in events.now) }
{
    let mut zones = ZoneList::new(alloc);
    if let Some(event) = events.series() {
        zones.put_all(alloc, event.zones.as_slice())?;
    }
    put_all_zones(alloc, &mut zones, events.instances())?;
    Ok(zones)
}

// The number of the line that a refusal by a limit is reported at: that of the series' BEGIN, otherwise that of the first instance.
fn first_of(events: &Gathered) -> u64
    ensures { result ≡ first_of events.now.series events.now.instances }
{
    match events.series() {
        Some(event) => event.first,
        None => first_number(events.instances()),
    }
}

// How a key is read whose dates beside moments are read as the occurrences of their days, or not.
fn marks_of_day(day: bool) -> Marks
    ensures { result ≡ marks_of_day day }
{
    Marks {
        until: false,
        start: false,
        day,
    }
}

/// What the events of these indexes state together beside a stated offset, read leniently or not. The refusal is that of the edited
/// series.
pub(crate) fn state_key(
    alloc: Global,
    offset: Option<i32>,
    lenient: bool,
    pieces: &[Piece],
    indexes: &[usize],
) -> Result<KeySeries, KeyFault>
    requires { All IsNumberedPiece pieces.now }
    ensures { AnswersStated
        (stated_by offset lenient (texts_at (map lines_in pieces.now) indexes.now)) result }
{
    let listed = taken_at(alloc, pieces, indexes)?;
    let events = gather(alloc, listed)?;
    let zones = zones_of(alloc, &events)?;
    let place = first_of(&events);
    let lengths = lengths_of(alloc, offset, &events)?;
    let read = read_key(alloc, offset, lenient, events)?;
    Ok(KeySeries {
        series: read.series,
        zones: zones.into_items(),
        place,
        lengths,
        marks: marks_of_day(read.day),
    })
}

// Puts the words of the event of an index, if there is one.
fn put_words(
    alloc: Global,
    words: &mut Vec<EventWords>,
    pieces: &[Piece],
    index: usize,
) -> Result<(), NoMemory>
    requires { All IsNumberedPiece pieces.now }
    ensures { OnOk result (words.new.items
        ≡ words.old.items ++ map event_words (text_at (map lines_in pieces.now) index)) }
{
    if let Some(piece) = pieces.get(index) {
        words.push(read_words(alloc, *piece)?)?;
    }
    Ok(())
}

/// The words of the events of indexes, each read anew; one beyond the last event adds nothing.
pub(crate) fn words_at(
    alloc: Global,
    pieces: &[Piece],
    indexes: &[usize],
) -> Result<KeyWords, NoMemory>
    requires { All IsNumberedPiece pieces.now }
    ensures { IfOk result (λ words. words
        ≡ words_in (texts_at (map lines_in pieces.now) indexes.now)) }
{
    let mut words = Vec::new(alloc);
    for index in indexes {
        put_words(alloc, &mut words, pieces, *index)?;
    }
    Ok(KeyWords::of(Language::Ics, words))
}

/// The title of the event of an index, empty without one.
pub(crate) fn title_at(alloc: Global, pieces: &[Piece], index: usize) -> Result<Bytes, NoMemory>
    requires { All IsNumberedPiece pieces.now }
    ensures { IfOk result (λ title. title ≡ title_at (map lines_in pieces.now) index) }
{
    match pieces.get(index) {
        Some(piece) => read_title(alloc, *piece),
        None => Ok(Bytes::new(alloc)),
    }
}
