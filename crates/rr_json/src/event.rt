// The events of a key as an object.
ghost use Rattle.std.specs.Prelude.{◌≡◌, ◌++◌, IfOk, OnOk};
ghost use Rattle.serde_json.specs.View.{items_view, members_view};
ghost use Rattle.serde_json.specs.Written.{compact_text};
ghost use Rattle.rr_json.specs.Event.{event_json, event_members, has_mark, marks_items, put_marks as with_marks, put_partner as with_partner, put_title as with_title};
ghost use Rattle.rr_trip.specs.Said.{IsPrintableSaid};

use crate::said::{put_if, said_map};
use crate::text::{key_value, text_value};
use rr_model::{Bytes, NoMemory};
use rr_seam::Marks;
use rr_trip::{Partner, ReportLine};
use serde_json::{Map, Value, put};
use std::alloc::Global;

// Puts the title, if titles are asked for.
fn put_title(
    map: &mut Map<String, Value>,
    alloc: Global,
    title: &Option<Bytes>,
) -> Result<(), NoMemory>
    ensures { OnOk result (members_view map.new.entries
        ≡ with_title title.now (members_view map.old.entries)) }
{
    match title {
        None => Ok(()),
        Some(title) => {
            put(map, alloc, "title", text_value(alloc, title.as_slice())?)?;
            Ok(())
        }
    }
}

// Whether the events of a key are read as calendars show them.
fn has_mark(marks: Marks) -> bool
    ensures { result ≡ has_mark marks }
{
    marks.until || marks.start || marks.day
}

// How they are read, in the words of a report.
fn marks_of(alloc: Global, marks: Marks) -> Result<Vec<Value>, NoMemory>
    ensures { IfOk result (λ values. items_view values.items ≡ marks_items marks) }
{
    let mut values = Vec::new(alloc);
    if marks.until {
        values.push(Value::try_from_str(alloc, "until")?)?;
    }
    if marks.start {
        values.push(Value::try_from_str(alloc, "start")?)?;
    }
    if marks.day {
        values.push(Value::try_from_str(alloc, "day")?)?;
    }
    Ok(values)
}

// Puts how the events of a key are read, if they are at odds with RFC 5545.
fn put_marks(map: &mut Map<String, Value>, alloc: Global, marks: Marks) -> Result<(), NoMemory>
    ensures { OnOk result (members_view map.new.entries
        ≡ with_marks marks (members_view map.old.entries)) }
{
    if has_mark(marks) {
        let values = marks_of(alloc, marks)?;
        put(map, alloc, "read", Value::Array(values))?;
    }
    Ok(())
}

// Puts the key in B, if it is another one, and that the title is another one too, if it is.
fn put_partner(
    map: &mut Map<String, Value>,
    alloc: Global,
    partner: &Option<Partner>,
) -> Result<(), NoMemory>
    ensures { OnOk result (members_view map.new.entries
        ≡ with_partner partner.now (members_view map.old.entries)) }
{
    match partner {
        None => Ok(()),
        Some(partner) => {
            put(map, alloc, "partner", key_value(alloc, &partner.key)?)?;
            put_if(map, alloc, "other_title", partner.has_other_title)
        }
    }
}

// The members of the events of a line.
fn event_map(alloc: Global, line: &ReportLine) -> Result<Map<String, Value>, NoMemory>
    requires { IsPrintableSaid line.now.said }
    ensures { IfOk result (λ map. members_view map.entries ≡ event_members line.now) }
{
    let mut map = said_map(alloc, line.said)?;
    put_title(&mut map, alloc, &line.title)?;
    put_marks(&mut map, alloc, line.marks)?;
    put_partner(&mut map, alloc, &line.partner)?;
    put(&mut map, alloc, "key", key_value(alloc, &line.key)?)?;
    Ok(map)
}

/// Appends the events of a line as an object.
pub(crate) fn push_event(
    out: &mut Vec<u8>,
    alloc: Global,
    line: &ReportLine,
) -> Result<(), NoMemory>
    requires { IsPrintableSaid line.now.said }
    ensures { OnOk result (out.new.items ≡ out.old.items ++ compact_text (event_json line.now)) }
{
    let map = event_map(alloc, line)?;
    let text = Value::Object(map).to_vec(alloc)?;
    out.extend_from_slice(&text)?;
    Ok(())
}
