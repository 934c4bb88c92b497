// Reads the JSON of an event or of a bare recurrence (Microsoft Graph, event, patternedRecurrence).
ghost use Rattle.std.specs.Prelude.{IfOk};
ghost use Rattle.rr_model.specs.Answers.{Answers};
ghost use Rattle.rr_model.specs.Graph.Reading.{graph_text, reads_graph};
ghost use Rattle.rr_model.specs.Graph.Validity.{IsValidGraphEvent};
ghost use Rattle.std.specs.Str.{IsUtf8};

use crate::event::value_in;
use crate::members::json_object;
use rr_model::{Fault, GraphEvent, Refusal};
use rr_text::without_mark;
use std::alloc::Global;

// What a text in UTF-8 states.
#[tactic(auto, unfolding(rr_model::specs::Graph::Reading::graph_text))]
fn read_text(alloc: Global, text: &[u8], offset: Option<i32>) -> Result<GraphEvent, Fault>
    requires { IsUtf8 text.now }
    ensures answers { Answers (graph_text offset text.now) result }
    ensures valid { IfOk result IsValidGraphEvent }
{
    let value = json_object(alloc, without_mark(text))?;
    Ok(value_in(offset, &value)?)
}

/// Reads an event or a bare recurrence (Microsoft Graph, event, recurrencePattern and recurrenceRange).
///
/// The offset is local time less UTC in seconds. It turns the start of an event that is not all day and whose `timeZone`
/// is `UTC` or whose `dateTime` ends with `Z`; without it the start is taken as it stands. An object with a member
/// `pattern` is a bare recurrence, a series of dates, and so is an all-day event one. A member that is null counts as
/// missing, members that are not named here or that a type does not use are passed over, and so is one byte order mark.
/// Names of members are exact, and words are read in either letter case.
///
/// The first fault is the refusal. `NotText` comes for bytes that are no UTF-8, `BadJson` for a text that is no JSON, is
/// nested more than 127 levels deep, or is no object. Of an event: `NoStart` without a `start`, then `BadMember` of
/// `start` if it is no object, of `dateTime` if it is no moment of the years 1 to 9999, also by the offset, of
/// `timeZone` if it is no text, of `isAllDay` if it is not true or false, and of `recurrence` if it is no object.
/// Of a recurrence `BadMember` of `pattern` and of `range`; of its pattern `BadMember` of the first member that is missing
/// or has no allowed value, in the order of `Member`, and with the interval `IntervalTooLarge`; then so of its range.
/// At last `StartDiffers` if the date of an event's start is not the startDate, and `NoOccurrence` if no day of the
/// years 1 to 9999 is one of the pattern and the range.
#[tactic(auto, unfolding(rr_model::specs::Graph::Reading::reads_graph))]
pub fn read(alloc: Global, bytes: &[u8], offset: Option<i32>) -> Result<GraphEvent, Fault>
    ensures answers { Answers (reads_graph offset bytes.now) result }
    ensures valid { IfOk result IsValidGraphEvent }
{
    match std::str::from_utf8(bytes) {
        Ok(_) => read_text(alloc, bytes, offset),
        Err(_) => Err(Fault::Refused(Refusal::NotText)),
    }
}
