// The one event of a key.
ghost use Rattle.std.specs.Prelude.{◌≡◌, IfOk, IfSome, Some, map, option_map};
ghost use Rattle.rr_vcalfile.specs.Gathered.{AnswersFirst, AnswersGathered, first_lines};
ghost use Rattle.rr_vcalfile.specs.Parts.{lines_in};
ghost use Rattle.rr_vcalfile.specs.Stated.{first_line, gathered_at, with_event, with_index};
ghost use Rattle.rr_vcalfile.specs.Words.{event_words};

use crate::event::first_line;
use crate::find::part_lines;
use crate::first::FirstEvent;
use crate::part::Part;
use crate::words::read_words;
use rr_model::NoMemory;
use rr_seam::{EventWords, KeyFault, KeyRefusal, are_same_event};
use std::alloc::Global;

// The number of the line that begins an event.
fn line_of(alloc: Global, part: Part) -> Result<u64, NoMemory>
    ensures { IfOk result (λ line. line ≡ first_line (lines_in part.entry)) }
{
    let lines = part_lines(alloc, part)?;
    Ok(first_line(lines.as_slice()))
}

// The words of the first event, which are read once.
fn words_of(alloc: Global, part: Part, words: Option<EventWords>) -> Result<EventWords, NoMemory>
    requires { IfSome words (λ w. w ≡ event_words (lines_in part)) }
    ensures { IfOk result (λ words. words ≡ event_words (lines_in part.entry)) }
{
    match words {
        Some(words) => Ok(words),
        None => read_words(alloc, part),
    }
}

// The first event of a key beside a further one, which has to state the same.
fn beside<'a>(alloc: Global, first: FirstEvent<'a>, part: Part) -> Result<FirstEvent<'a>, KeyFault>
    ensures { AnswersFirst (with_event (Some (first_lines first.entry)) (lines_in part.entry)) result }
{
    let kept = first.part;
    let words = words_of(alloc, kept, first.words)?;
    let again = read_words(alloc, part)?;
    if !are_same_event(&words, &again) {
        let line = line_of(alloc, part)?;
        return Err(KeyFault::Refused(KeyRefusal::TwoSeries(line)));
    }
    Ok(FirstEvent {
        part: kept,
        words: Some(words),
    })
}

// With the event of an index more; an index beyond the last event adds nothing.
fn with_index<'a>(
    alloc: Global,
    parts: &[Part<'a>],
    gathered: Option<FirstEvent<'a>>,
    index: usize,
) -> Result<Option<FirstEvent<'a>>, KeyFault>
    ensures { AnswersGathered (with_index (map lines_in parts.now) (option_map first_lines gathered.entry)
        index) result }
{
    match (gathered, parts.get(index)) {
        (gathered, None) => Ok(gathered),
        (None, Some(part)) => Ok(Some(FirstEvent {
            part: *part,
            words: None,
        })),
        (Some(first), Some(part)) => Ok(Some(beside(alloc, first, *part)?)),
    }
}

/// The event of these indexes, which further ones may state again. `TwoSeries` comes for one in other words.
pub(crate) fn gather<'a>(
    alloc: Global,
    parts: &[Part<'a>],
    indexes: &[usize],
) -> Result<Option<FirstEvent<'a>>, KeyFault>
    ensures { AnswersGathered (gathered_at (map lines_in parts.now) indexes.now) result }
{
    let mut gathered = None;
    for index in indexes {
        gathered = with_index(alloc, parts, gathered, *index)?;
    }
    Ok(gathered)
}
