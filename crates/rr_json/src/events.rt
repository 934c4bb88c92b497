// The events of a report, one object behind the other, so that there is only one of them in memory at once.
ghost use Rattle.std.specs.Prelude.{◌≡◌, ◌++◌, [], ◌∷◌, ◌||◌, All, IfOk, OnOk, false, not};
ghost use Rattle.serde_json.specs.Data.{Items};
ghost use Rattle.serde_json.specs.Written.{comma_if, items_text};
ghost use Rattle.rr_json.specs.Json.{events_items, with_event};
ghost use Rattle.rr_trip.specs.Printed.{is_difference};
ghost use Rattle.rr_trip.specs.Said.{IsPrintableSaid};

use crate::event::push_event;
use rr_model::{NoMemory, Verdict};
use rr_trip::{ReportLine, Said, Zones};
use std::alloc::Global;

// Whether a line is printed if those of equal keys are left out, unless nobody can tell of one.
fn is_difference(said: Said) -> bool
    ensures { result ≡ is_difference said }
{
    match said {
        Said::Compared {
            verdict: Verdict::Yes,
            zones,
        } => matches!(zones, Zones::Unknown),
        _ => true,
    }
}

// Whether the events of a line are told.
fn is_told(only_differences: bool, said: Said) -> bool
    ensures { result ≡ (not only_differences || is_difference said) }
{
    !only_differences || is_difference(said)
}

// Puts what stands before an event: a comma, if another one stands before it.
fn push_separator(out: &mut Vec<u8>, later: bool) -> Result<(), NoMemory>
    ensures { OnOk result (out.new.items ≡ out.old.items ++ comma_if later) }
{
    if later {
        out.push(b',')?;
    }
    Ok(())
}

// Puts the events of a line, unless it is left out, behind others if there are some; whether there are some then.
fn push_line(
    out: &mut Vec<u8>,
    alloc: Global,
    only_differences: bool,
    later: bool,
    line: &ReportLine,
) -> Result<bool, NoMemory>
    requires { IsPrintableSaid line.now.said }
    ensures { IfOk result (λ next. (rest : Items) → out.new.items ++ items_text next rest
        ≡ out.old.items ++ items_text later (with_event only_differences line.now rest)) }
{
    if is_told(only_differences, line.said) {
        push_separator(out, later)?;
        push_event(out, alloc, line)?;
        return Ok(true);
    }
    Ok(later)
}

/// Appends the events of a report, up to the bracket that closes their list.
pub(crate) fn push_events(
    out: &mut Vec<u8>,
    alloc: Global,
    only_differences: bool,
    lines: &[ReportLine],
) -> Result<(), NoMemory>
    requires { All (λ line. IsPrintableSaid line.said) lines.now }
    ensures { OnOk result (out.new.items ++ (93 ∷ [])
        ≡ out.old.items ++ items_text false (events_items only_differences lines.now)) }
{
    let mut later = false;
    for line in lines {
        later = push_line(out, alloc, only_differences, later, line)?;
    }
    Ok(())
}
