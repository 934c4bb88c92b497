// The lines of an event that decide when it occurs (RFC 5545, sections 3.8.2.4, 3.8.4.4 and 3.8.5; vCalendar 1.0, section 2.2).
ghost use Rattle.std.specs.Prelude.{◌≡◌, ◌++◌, flat_map, map, IfOk, OnOk};
ghost use Rattle.rr_events.specs.Words.{decides, line_words};

use rr_ical::is_named;
use rr_model::{Bytes, Line, NoMemory};
use std::alloc::Global;

// Whether a line is one of those that decide when an event occurs.
fn decides(text: &[u8]) -> bool
    ensures { result ≡ decides text.now }
{
    is_named(text, b"DTSTART")
        || is_named(text, b"RECURRENCE-ID")
        || is_named(text, b"RRULE")
        || is_named(text, b"EXRULE")
        || is_named(text, b"RDATE")
        || is_named(text, b"EXDATE")
}

// Puts the words of a line.
fn put_line_words(alloc: Global, words: &mut Vec<Bytes>, line: &Line) -> Result<(), NoMemory>
    ensures { OnOk result (words.new.items ≡ words.old.items ++ line_words line.now) }
{
    let text = line.text.as_slice();
    if decides(text) {
        words.push(Bytes::of(alloc, text)?)?;
    }
    Ok(())
}

/// The texts of the lines that decide when an event occurs, among its own lines, in their order: DTSTART, RECURRENCE-ID, RRULE,
/// EXRULE, RDATE and EXDATE, unfolded and with their parameters.
pub fn deciding_lines(alloc: Global, own: &[&Line]) -> Result<Vec<Bytes>, NoMemory>
    ensures { IfOk result (λ words. words.items
        ≡ flat_map line_words (map (λ line. line.now) own.now)) }
{
    let mut words = Vec::new(alloc);
    for line in own {
        put_line_words(alloc, &mut words, line)?;
    }
    Ok(words)
}
