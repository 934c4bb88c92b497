// The events of a vCalendar text (vCalendar 1.0, section 2.1).
ghost use Rattle.std.specs.Prelude.{◌≡◌, ◌<◌, ◌++◌, ◌∷◌, ◌^◌, [], All, length, map, IfOk, OnOk};
ghost use Rattle.rr_events.specs.Segments.{section_in, sections_of};
ghost use Rattle.rr_ical.specs.declared.open_names.Sought.TheVariants.{Events};
ghost use Rattle.rr_vcalfile.specs.Events.{events_in, events_or_refusal, text_events};
ghost use Rattle.rr_vcalfile.specs.Parts.{AnswersEvents, IsNumbered, component_fault, lines_in};

use crate::part::Part;
use rr_events::{Piece, Segment, has_begin, segments};
use rr_ical::Sought;
use rr_model::{Fault, LineList, NoMemory, Refusal};
use rr_seam::{FileFault, FileRefusal};
use rr_text::lines_from;
use std::alloc::Global;

/// The lines of an event; a line that is folded keeps the blank at the fold.
pub(crate) fn part_lines(alloc: Global, part: Part) -> Result<LineList, NoMemory>
    ensures { IfOk result (λ lines. lines ≡ lines_in part.entry) }
{
    lines_from(alloc, part.text, true, part.first)
}

// Puts a segment, if it is an event.
fn put_part<'a>(parts: &mut Vec<Part<'a>>, segment: Segment<'a>) -> Result<(), NoMemory>
    requires { IsNumbered segment }
    ensures { OnOk result (map lines_in parts.new.items
        ≡ map lines_in parts.old.items ++ events_in (section_in segment.entry ∷ [])) }
{
    if !segment.is_component {
        return Ok(());
    }
    parts.push(Part {
        text: segment.piece.text,
        first: segment.piece.first,
    })?;
    Ok(())
}

// Puts the events among segments.
fn put_parts<'a>(parts: &mut Vec<Part<'a>>, segments: &[Segment<'a>]) -> Result<(), NoMemory>
    requires { All IsNumbered segments.now }
    ensures { OnOk result (map lines_in parts.new.items
        ≡ map lines_in parts.old.items ++ events_in (map section_in segments.now)) }
{
    for segment in segments {
        put_part(parts, *segment)?;
    }
    Ok(())
}

// The fault of a file for a fault of its components.
fn component_fault(fault: Fault) -> FileFault
    ensures { result ≡ component_fault fault }
{
    match fault {
        Fault::NoMemory => FileFault::NoMemory,
        Fault::Refused(Refusal::BadLine(line)) => FileFault::Refused(FileRefusal::BadLine(line)),
        Fault::Refused(_) => FileFault::Refused(FileRefusal::BadLine(0)),
    }
}

// The events of a text that has a BEGIN.
fn found_parts<'a>(alloc: Global, text: &'a [u8]) -> Result<Vec<Part<'a>>, FileFault>
    requires { length text.now < 2 ^ 62 }
    ensures { AnswersEvents (events_or_refusal (sections_of Events 1 text.now)) result }
{
    let whole = Piece { text, first: 1 };
    let segments = match segments(alloc, Sought::Events, whole) {
        Ok(segments) => segments,
        Err(fault) => return Err(component_fault(fault)),
    };
    let mut parts = Vec::new(alloc);
    put_parts(&mut parts, &segments)?;
    Ok(parts)
}

/// The events of a text without a byte order mark: `NoEvents` comes without a BEGIN, then the first fault of its components.
pub(crate) fn text_parts<'a>(alloc: Global, text: &'a [u8]) -> Result<Vec<Part<'a>>, FileFault>
    requires { length text.now < 2 ^ 62 }
    ensures { AnswersEvents (text_events text.now) result }
{
    if !has_begin(alloc, text)? {
        return Err(FileFault::Refused(FileRefusal::NoEvents));
    }
    found_parts(alloc, text)
}
