// The text of a plan of events of vCalendar 1.0.
ghost use Rattle.std.specs.Prelude.{◌≡◌, ◌∷◌, ◌≤◌, All, IfOk, OnOk, int_lt, length};
ghost use Rattle.rr_model.specs.Moment.Years.{IsInYears};
ghost use Rattle.rr_model.specs.Rising.{Rises};
ghost use Rattle.rr_model.specs.Text.Written.{lines_of};
ghost use Rattle.rr_model.specs.Vcal.Validity.{IsValidVSeries};
ghost use Rattle.rr_model.specs.declared.limits.TheConstants.{MAX_DATES};
ghost use Rattle.rr_plan_text.specs.VcalText.{component_text, dates_event, single_events, vcal_plan_text};
ghost use Rattle.rr_text.specs.Appending.{Appends};

use rr_model::{Dates, Kind, NoMemory, VRules, VSeries};
use rr_vcal::write;
use std::alloc::Global;

// Puts an event between the lines that begin and end it.
fn push_component(out: &mut Vec<u8>, alloc: Global, event: &VSeries) -> Result<(), NoMemory>
    requires { IsValidVSeries event.now }
    ensures { OnOk result (Appends out.old out.new (component_text event.now)) }
{
    let text = write(alloc, event)?;
    out.extend_from_slice(b"BEGIN:VEVENT\r\n")?;
    out.extend_from_slice(text.as_slice())?;
    out.extend_from_slice(b"END:VEVENT\r\n")?;
    Ok(())
}

// Puts events one after another.
fn push_components(out: &mut Vec<u8>, alloc: Global, events: &[VSeries]) -> Result<(), NoMemory>
    requires { All IsValidVSeries events.now }
    ensures { OnOk result (Appends out.old out.new (lines_of component_text events.now)) }
{
    for event in events {
        push_component(out, alloc, event)?;
    }
    Ok(())
}

// The dates or moments of a rising list.
fn dates_of(alloc: Global, values: &[i64]) -> Result<Dates, NoMemory>
    requires { Rises int_lt values.now }
    ensures { IfOk result (λ dates. dates ≡ values.now) }
{
    let mut dates = Dates::new(alloc);
    for value in values {
        dates.put(*value)?;
    }
    Ok(dates)
}

// The event that starts with one date or moment and has these further ones.
fn dates_event(alloc: Global, kind: Kind, start: i64, plus: &[i64]) -> Result<VSeries, NoMemory>
    requires { Rises int_lt plus.now }
    ensures { IfOk result (λ event. event ≡ dates_event kind start plus.now) }
{
    Ok(VSeries {
        kind,
        start,
        rules: VRules::new(alloc),
        excluded: VRules::new(alloc),
        plus: dates_of(alloc, plus)?,
        minus: Dates::new(alloc),
    })
}

// Puts the event of single dates or moments, if there are some.
fn push_single(out: &mut Vec<u8>, alloc: Global, kind: Kind, single: &[i64]) -> Result<(), NoMemory>
    requires years { All (IsInYears kind) single.now }
    requires rises { Rises int_lt single.now }
    requires few { length single.now ≤ MAX_DATES }
    ensures { OnOk result
        (Appends out.old out.new (lines_of component_text (single_events kind single.now))) }
{
    if single.is_empty() {
        return Ok(());
    }
    let event = dates_event(alloc, kind, single[0], &single[1..])?;
    push_component(out, alloc, &event)
}

/// Writes a plan of events of vCalendar 1.0: its events, and at the end the event of its single occurrences, which are of one kind
/// and at most `MAX_DATES`.
///
/// Each event stands between the lines `BEGIN:VEVENT` and `END:VEVENT`, and between them what `rr_vcal::write` writes for it alone.
/// The single occurrences are one event: it starts with the first of them, and each other one is an RDATE.
pub fn write_vcal_plan(
    alloc: Global,
    events: &[VSeries],
    kind: Kind,
    single: &Dates,
) -> Result<Vec<u8>, NoMemory>
    requires events { All IsValidVSeries events.now }
    requires single { All (IsInYears kind) single.now }
    requires few { length single.now ≤ MAX_DATES }
    ensures text { IfOk result (λ text. text.items ≡ vcal_plan_text events.now kind single.now) }
{
    let mut text = Vec::new(alloc);
    push_components(&mut text, alloc, events)?;
    push_single(&mut text, alloc, kind, single.as_slice())?;
    Ok(text)
}
