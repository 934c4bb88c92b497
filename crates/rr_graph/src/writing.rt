// Writes the JSON of an event or of a bare recurrence (Microsoft Graph, event, patternedRecurrence).
ghost use Rattle.std.specs.Prelude.{◌≡◌, IfOk};
ghost use Rattle.rr_model.specs.Graph.Text.{graph_written};
ghost use Rattle.rr_model.specs.Graph.Validity.{IsRangeEnd, IsValidGraphEvent};
ghost use Rattle.rr_model.specs.Moment.Years.{HasFourDigitYear, IsInYears};
ghost use Rattle.rr_graph.specs.Written.{HasPattern, IsWrittenText};

use crate::written::event_value;
use rr_model::{GraphEvent, Kind, NoMemory, Pattern, Range, Repeat};
use std::alloc::Global;

// The text of a value as one line of compact JSON.
fn text_of(
    alloc: Global,
    kind: Kind,
    start: i64,
    pattern: &Pattern,
    range: &Range,
) -> Result<Vec<u8>, NoMemory>
    requires years { IsInYears kind start }
    requires start { HasFourDigitYear range.now.start_day }
    requires end { IsRangeEnd range.now.end }
    ensures { IfOk result (λ text. text.items ≡ graph_written kind start pattern.now range.now) }
{
    let value = event_value(alloc, kind, start, pattern, range)?;
    let mut text = value.to_vec(alloc)?;
    text.push(b'\n')?;
    Ok(text)
}

/// Writes an event that repeats (Microsoft Graph, event, recurrencePattern and recurrenceRange).
///
/// A series of dates is written as a bare recurrence, and one of moments as an event that is not all day, with a start in
/// local time without a fraction and without a `timeZone`. The text is compact JSON in one line, with the names of members
/// in rising order of their bytes and a line feed at its end. A pattern has the members that its type uses, `interval` also
/// if it is 1, and `firstDayOfWeek` and `index` also if they are what a reader takes for a missing one; the days go
/// from Sunday to Saturday.
pub fn write(alloc: Global, event: &GraphEvent) -> Result<Vec<u8>, NoMemory>
    requires valid { IsValidGraphEvent event.now }
    requires repeats { HasPattern event.now.repeat }
    ensures text { IfOk result
        (λ text. IsWrittenText event.now.kind event.now.start event.now.repeat text.items) }
{
    match event.repeat {
        Repeat::Once => unreachable!(),
        Repeat::Pattern { pattern, range } => {
            text_of(alloc, event.kind, event.start, &pattern, &range)
        }
    }
}
