// The used lines of the one event (RFC 5545, section 3.6.1).
ghost use Rattle.std.specs.Prelude.{◌≡◌, ◌++◌, ◌+◌, [], length, IfOk, OnOk, Ok, Err, codes};
ghost use Rattle.std.specs.List.{cons_option, list_any};
ghost use Rattle.rr_model.specs.Text.Lines.{physical_lines};
ghost use Rattle.rr_model.specs.Text.Event.{no_components, value_on, left_by, left_at, scan_of, event_scan};
ghost use Rattle.rr_model.specs.Text.UsedLines.{is_named};
ghost use Rattle.rr_ical.specs.Steps.{AreLeftByLine, used_line_on};

use crate::components::Nesting;
use crate::names::{is_named, line_kind};
use crate::value::value_part;
use rr_model::{
    Bytes, Fault, Line, LineKind, LineList, LineName, NoMemory, Refusal, Scan, Used, UsedLine,
};
use rr_text::{lines, take_line};
use std::alloc::Global;

// The value of a line that has to have one. It stays in the memory of the line's text.
fn kept_value(number: u64, text: Bytes) -> Result<Bytes, Refusal>
    ensures { result ≡ value_on number text }
{
    let Some(part) = value_part(text.as_slice()) else {
        return Err(Refusal::BadLine(number));
    };
    let mut value = text;
    value.keep_part(part.from, part.count);
    Ok(value)
}

// What a line leaves, by its kind.
fn step(
    is_bare: bool,
    nesting: &mut Nesting,
    number: u64,
    kind: LineKind,
    text: Bytes,
) -> Result<Option<UsedLine>, Fault>
    ensures { AreLeftByLine (left_at is_bare nesting.old number kind text) nesting.new result }
{
    match kind {
        LineKind::Begin => {
            let name = kept_value(number, text)?;
            nesting.begin(name)?;
            Ok(None)
        }
        LineKind::End => {
            let name = kept_value(number, text)?;
            nesting.end(number, name.as_slice())?;
            Ok(None)
        }
        LineKind::Property(name) => {
            if !(is_bare || nesting.is_in_event()) {
                return Ok(None);
            }
            Ok(Some(used_line(number, name, text)?))
        }
        LineKind::Other => Ok(None),
    }
}

// The used line that a line is.
fn used_line(number: u64, name: LineName, text: Bytes) -> Result<UsedLine, Refusal>
    ensures { result ≡ used_line_on number name text }
{
    let value = kept_value(number, text)?;
    Ok(UsedLine {
        number,
        name,
        value,
    })
}

// What a line leaves.
#[tactic(auto, unfolding(rr_model::specs::Text::Event::left_by))]
fn take_in(is_bare: bool, nesting: &mut Nesting, line: Line) -> Result<Option<UsedLine>, Fault>
    ensures { AreLeftByLine (left_by is_bare nesting.old line) nesting.new result }
{
    let kind = line_kind(line.text.as_slice());
    step(is_bare, nesting, line.number, kind, line.text)
}

// Puts a used line, if there is one.
fn keep(used: &mut Used, line: Option<UsedLine>) -> Result<(), NoMemory>
    ensures { OnOk result (used.new ≡ used.old ++ cons_option line []) }
{
    match line {
        Some(line) => used.put(line),
        None => Ok(()),
    }
}

/// The used lines of unfolded lines, up to the first fault of the components.
///
/// `is_bare` says that no line has the name BEGIN, and `last` is the number of the last physical line, which the
/// refusal of an open component names. See `event_lines`.
pub fn scan_lines(
    alloc: Global,
    is_bare: bool,
    last: u64,
    lines: LineList,
) -> Result<Scan, NoMemory>
    ensures { IfOk result (λ scan. scan ≡ scan_of is_bare last no_components lines) }
{
    let mut used = Used::new(alloc);
    let mut nesting = Nesting::new(alloc);
    for line in lines.into_items() {
        match take_in(is_bare, &mut nesting, line) {
            Ok(kept) => keep(&mut used, kept)?,
            Err(Fault::Refused(refusal)) => {
                return Ok(Scan {
                    used,
                    stop: Some(refusal),
                });
            }
            Err(Fault::NoMemory) => return Err(NoMemory),
        }
    }
    Ok(Scan {
        used,
        stop: nesting.stop_at_end(last),
    })
}

// Whether the line has the name BEGIN.
fn begins(line: &Line) -> bool
    ensures { result ≡ is_named line.now.text (codes "BEGIN") }
{
    is_named(line.text.as_slice(), b"BEGIN")
}

// Whether some line has the name BEGIN.
fn has_begin(lines: &[Line]) -> bool
    ensures { result ≡ list_any (λ line. is_named line.text (codes "BEGIN")) lines.now }
{
    for line in lines {
        if begins(line) {
            return true;
        }
    }
    false
}

// How many physical lines the bytes have.
fn count_lines(bytes: &[u8]) -> u64
    ensures { result ≡ length (physical_lines bytes.now) }
{
    let mut rest = bytes;
    let mut count = 0u64;
    while let Some((_, after)) = take_line(rest) {
        count += 1;
        rest = after;
    }
    count
}

/// The used lines of the one event of a text, or of a text without components, up to the first fault of these.
///
/// A used line is DTSTART, RRULE, RDATE, EXDATE or EXRULE directly within VEVENT; if no line has the name BEGIN,
/// each such line is one. The scan stops with `BadLine` at a used, BEGIN or END line without a value, at an END that
/// does not close the innermost open component, and, with the last line's number, if the text ends within a
/// component; with `SeveralEvents` at a second VEVENT (RFC 5545, sections 3.4 and 3.6). Lines are unfolded as
/// `rr_text::lines` does it, and `keep_blank` is handed to it. A byte order mark is no part of the bytes.
#[tactic(auto, unfolding(rr_model::specs::Text::Event::event_scan))]
pub fn event_lines(alloc: Global, bytes: &[u8], keep_blank: bool) -> Result<Scan, NoMemory>
    ensures { IfOk result (λ scan. scan ≡ event_scan keep_blank bytes.now) }
{
    let lines = lines(alloc, bytes, keep_blank)?;
    let is_bare = !has_begin(lines.as_slice());
    scan_lines(alloc, is_bare, count_lines(bytes), lines)
}
