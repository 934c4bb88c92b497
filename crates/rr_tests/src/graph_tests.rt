// Events of Microsoft Graph, what they are in RFC 5545, and their text.
use crate::rows::{is_said, printed, rows_hold};
use rr_graph::{read, to_series, write};
use rr_model::Repeat;
use std::alloc::Global;

// Every second Monday from a Wednesday on, twice; weeks begin on Monday.
const MONDAYS: &str =
    "{\"pattern\":{\"type\":\"weekly\",\"interval\":2,\"daysOfWeek\":[\"monday\"],\"firstDayOfWeek\":\"monday\"},\"range\":{\"type\":\"numbered\",\"startDate\":\"2024-01-03\",\"numberOfOccurrences\":2}}";

// The start of an event, and the kind, the start and the number of rules of its counterpart.
fn counterpart_said(alloc: Global, text: &str) -> Option<String> {
    let event = read(alloc, text.as_bytes(), None).ok()?;
    let series = to_series(alloc, &event).ok()?;
    let rules = series.rules.as_slice().len();
    printed(alloc, &(event.start, series.kind, series.start, rules))
}

#[test]
fn a_start_before_the_first_occurrence(rt: HostRuntime) {
    let said = counterpart_said(rt.alloc(), MONDAYS);
    is_said(&rt, said, "(19725, Days, 19737, 1)", MONDAYS);
}

// Texts as they are written, and whether they are written again.
const WRITTEN: &str = "\
{\"isAllDay\":false,\"recurrence\":{\"pattern\":{\"interval\":1,\"type\":\"daily\"},\"range\":{\"startDate\":\"2024-01-01\",\"type\":\"noEnd\"}},\"start\":{\"dateTime\":\"2024-01-01T09:00:00\"}}~|true
{\"pattern\":{\"interval\":1,\"type\":\"daily\"},\"range\":{\"numberOfOccurrences\":1,\"startDate\":\"2024-01-01\",\"type\":\"numbered\"}}~|true
{\"pattern\":{\"daysOfWeek\":[\"monday\"],\"firstDayOfWeek\":\"sunday\",\"interval\":999,\"type\":\"weekly\"},\"range\":{\"startDate\":\"2024-01-01\",\"type\":\"noEnd\"}}~|true
{\"pattern\":{\"daysOfWeek\":[\"wednesday\"],\"index\":\"third\",\"interval\":1,\"type\":\"relativeMonthly\"},\"range\":{\"startDate\":\"2024-01-17\",\"type\":\"noEnd\"}}~|true
";

fn is_written_again(alloc: Global, text: &str) -> Option<String> {
    let event = read(alloc, text.as_bytes(), None).ok()?;
    let Repeat::Pattern { .. } = event.repeat else {
        return None;
    };
    let written = write(alloc, &event).ok()?;
    printed(alloc, &(written.as_slice() == text.as_bytes()))
}

#[test]
fn written_texts_are_written_again(rt: HostRuntime) {
    rows_hold(&rt, rt.alloc(), is_written_again, WRITTEN);
}
