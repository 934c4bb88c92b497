// The JSON of a plan.
ghost use Rattle.std.specs.Prelude.{◌≡◌, ◌++◌, [], ◌∷◌, All, IfOk, OnOk, false, nat_lt};
ghost use Rattle.serde_json.specs.Written.{comma_if, compact_text, items_text};
ghost use Rattle.rr_graph.specs.Written.{HasPattern};
ghost use Rattle.rr_model.specs.Graph.Validity.{IsValidGraphEvent};
ghost use Rattle.rr_plan_text.specs.PlanText.{IsWritable, event_json, part_json, parts_items, plan_text};
ghost use Rattle.rr_text.specs.Printed.{IsPrintableAt};

use crate::moments::moments_text;
use rr_graph::write;
use rr_model::{Dates, GraphEvent, Kind, NoMemory};
use rr_plan::Part;
use std::alloc::Global;

// Puts an event as it is written alone, without its line end.
fn push_event(out: &mut Vec<u8>, alloc: Global, event: &GraphEvent) -> Result<(), NoMemory>
    requires valid { IsValidGraphEvent event.now }
    requires repeats { HasPattern event.now.repeat }
    ensures { OnOk result (out.new.items ≡ out.old.items ++ compact_text (event_json event.now)) }
{
    let text = write(alloc, event)?;
    out.extend_from_slice(&text.as_slice()[..text.len() - 1])?;
    Ok(())
}

// Puts a series with its cancelled instances.
fn push_part(out: &mut Vec<u8>, alloc: Global, part: &Part) -> Result<(), NoMemory>
    requires { IsWritable part.now }
    ensures { OnOk result (out.new.items ≡ out.old.items ++ compact_text (part_json part.now)) }
{
    out.extend_from_slice(b"{\"cancelled\":")?;
    let cancelled = moments_text(alloc, part.event.kind, part.cancelled.as_slice())?;
    out.extend_from_slice(cancelled.as_slice())?;
    out.extend_from_slice(b",\"event\":")?;
    push_event(out, alloc, &part.event)?;
    out.push(b'}')?;
    Ok(())
}

// Puts what stands before an item of a list: a comma, unless it is the first one.
fn push_separator(out: &mut Vec<u8>, index: usize) -> Result<(), NoMemory>
    ensures { OnOk result (out.new.items ≡ out.old.items ++ comma_if (nat_lt 0 index)) }
{
    if index > 0 {
        out.push(b',')?;
    }
    Ok(())
}

// Puts the series of a plan, up to the bracket that closes their list.
fn push_parts(out: &mut Vec<u8>, alloc: Global, parts: &[Part]) -> Result<(), NoMemory>
    requires { All IsWritable parts.now }
    ensures { OnOk result (out.new.items ++ (93 ∷ [])
        ≡ out.old.items ++ items_text false (parts_items parts.now)) }
{
    for (index, part) in parts.iter().enumerate() {
        push_separator(out, index)?;
        push_part(out, alloc, part)?;
    }
    Ok(())
}

/// Writes a plan: its series, each with the instances that are to be cancelled, and its single events, which are of one kind.
///
/// The text is compact JSON in one line, with the names of members in rising order of their bytes and a line feed at its end. An
/// event is written as `rr_graph::write` writes it alone, and a date or a moment as `2024-02-29` or `2024-02-29T09:30:00`.
pub fn write_plan(
    alloc: Global,
    parts: &[Part],
    kind: Kind,
    single: &Dates,
) -> Result<Vec<u8>, NoMemory>
    requires parts { All IsWritable parts.now }
    requires single { All (IsPrintableAt kind) single.now }
    ensures text { IfOk result (λ text. text.items ≡ plan_text parts.now kind single.now) }
{
    let mut text = Vec::from_slice(alloc, b"{\"parts\":[")?;
    push_parts(&mut text, alloc, parts)?;
    text.extend_from_slice(b"],\"single\":")?;
    let single = moments_text(alloc, kind, single.as_slice())?;
    text.extend_from_slice(single.as_slice())?;
    text.extend_from_slice(b"}\n")?;
    Ok(text)
}
