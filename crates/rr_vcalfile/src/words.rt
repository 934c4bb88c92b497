// In which words an event is stated, and its title (vCalendar 1.0, sections 2.1.3 and 2.2).
ghost use Rattle.std.specs.Prelude.{◌≡◌, ◌++◌, map, IfOk, OnOk};
ghost use Rattle.rr_vcalfile.specs.Parts.{lines_in};
ghost use Rattle.rr_vcalfile.specs.Stated.{text_at, texts_at, title_at};
ghost use Rattle.rr_vcalfile.specs.Words.{event_words, title_of, words_in};

use crate::find::part_lines;
use crate::part::Part;
use rr_events::{deciding_lines, first_value, own_lines};
use rr_model::{Bytes, NoMemory};
use rr_seam::{EventWords, KeyWords, Language};
use std::alloc::Global;

/// Reads the words of an event.
pub(crate) fn read_words(alloc: Global, part: Part) -> Result<EventWords, NoMemory>
    ensures { IfOk result (λ words. words ≡ event_words (lines_in part.entry)) }
{
    let lines = part_lines(alloc, part)?;
    let own = own_lines(alloc, lines.as_slice())?;
    Ok(EventWords::of(deciding_lines(alloc, &own)?))
}

// Puts the words of the event of an index, if there is one.
fn put_words(
    alloc: Global,
    words: &mut Vec<EventWords>,
    parts: &[Part],
    index: usize,
) -> Result<(), NoMemory>
    ensures { OnOk result (words.new.items
        ≡ words.old.items ++ map event_words (text_at (map lines_in parts.now) index)) }
{
    if let Some(part) = parts.get(index) {
        words.push(read_words(alloc, *part)?)?;
    }
    Ok(())
}

/// The words of the events of indexes, each read anew; one beyond the last event adds nothing.
pub(crate) fn words_at(
    alloc: Global,
    parts: &[Part],
    indexes: &[usize],
) -> Result<KeyWords, NoMemory>
    ensures { IfOk result (λ words. words ≡ words_in (texts_at (map lines_in parts.now) indexes.now)) }
{
    let mut words = Vec::new(alloc);
    for index in indexes {
        put_words(alloc, &mut words, parts, *index)?;
    }
    Ok(KeyWords::of(Language::Vcal, words))
}

// Reads the title of an event.
fn read_title(alloc: Global, part: Part) -> Result<Bytes, NoMemory>
    ensures { IfOk result (λ title. title ≡ title_of (lines_in part.entry)) }
{
    let lines = part_lines(alloc, part)?;
    let own = own_lines(alloc, lines.as_slice())?;
    Ok(Bytes::of(alloc, first_value(b"SUMMARY", &own))?)
}

/// The title of the event of an index, empty without one.
pub(crate) fn title_at(alloc: Global, parts: &[Part], index: usize) -> Result<Bytes, NoMemory>
    ensures { IfOk result (λ title. title ≡ title_at (map lines_in parts.now) index) }
{
    match parts.get(index) {
        Some(part) => read_title(alloc, *part),
        None => Ok(Bytes::new(alloc)),
    }
}
