// Lines with their moments of UTC in local time.
ghost use Rattle.std.specs.Prelude.{◌≡◌, ◌≤◌, ◌++◌, false, length, option_map, IfOk, OnOk};
ghost use Rattle.rr_model.specs.Text.RuleValues.{pieces};
ghost use Rattle.rr_events.specs.Finding.{before};
ghost use Rattle.rr_text.specs.Appending.{Appends};
ghost use Rattle.rr_model.specs.Text.UsedLines.{after_colon, after_name, has_quote};
ghost use Rattle.rr_zone.specs.Lines.{dates_front, dates_line, line_behind_commas, line_by, local_line, one_front, start_front, turn_of, turned_line};
ghost use Rattle.rr_zone.specs.Moments.{utc_moment};
ghost use Rattle.rr_zone.specs.OtherZones.{event_line, has_dates, in_utc, line_in, utc_line};
ghost use Rattle.rr_zone.specs.Values.{local_dates, local_moment, local_rule};
ghost use Rattle.rr_zone.specs.Clocks.{local_time};

use crate::clock::Clock;
use crate::clocks::Clocks;
use crate::value::{Role, push_dates, push_moment, push_rule, push_utc_value};
use rr_events::parameter_of;
use rr_ical::{after_colon, is_named, name_and_rest};
use rr_model::NoMemory;
use std::alloc::Global;

/// Which moments of UTC are turned in a line.
#[derive(Clone, Copy)]
pub(crate) enum Turn {
    /// The UNTIL of a rule: that of RRULE or EXRULE.
    OfRule,
    /// Each date of a list between commas, as RDATE and EXDATE have it.
    OfDates(Role),
    /// The one moment that is the value.
    OfOne(Role),
    /// None: the line stays as it is.
    Nothing,
}

// Which moments of UTC are turned in a line of an event by its name; the start of an instance is one of them.
fn turn_of(is_instance: bool, text: &[u8]) -> Turn
    ensures { result ≡ turn_of is_instance text.now }
{
    if is_named(text, b"RRULE") || is_named(text, b"EXRULE") {
        Turn::OfRule
    } else if is_named(text, b"EXDATE") {
        Turn::OfDates(Role::Exception)
    } else if is_named(text, b"RDATE") {
        Turn::OfDates(Role::Date)
    } else if is_named(text, b"RECURRENCE-ID") {
        Turn::OfOne(Role::Identity)
    } else if is_instance && is_named(text, b"DTSTART") {
        Turn::OfOne(Role::Date)
    } else {
        Turn::Nothing
    }
}

/// What stands before the rest of a text.
pub(crate) fn before<'a>(text: &'a [u8], rest: &[u8]) -> &'a [u8]
    requires { length rest.now ≤ length text.now }
    ensures { result.now ≡ before text.now rest.now }
{
    &text[..text.len() - rest.len()]
}

// Whether a name has a quote.
fn has_quote(name: &[u8]) -> bool
    ensures { result ≡ has_quote name.now }
{
    name.iter().any(|b| *b == b'"')
}

// The front of a start that is turned into the zone of this name.
fn push_start_front(out: &mut Vec<u8>, zone: &[u8], front: &[u8]) -> Result<(), NoMemory>
    ensures { OnOk result (Appends out.old out.new (start_front zone.now front.now)) }
{
    if has_quote(zone) {
        out.extend_from_slice(front)?;
        return Ok(());
    }
    let (name, _) = name_and_rest(front);
    out.extend_from_slice(name)?;
    out.extend_from_slice(b";TZID=\"")?;
    out.extend_from_slice(zone)?;
    out.extend_from_slice(b"\":")?;
    Ok(())
}

// The front of another line that is turned.
fn push_dates_front(out: &mut Vec<u8>, front: &[u8]) -> Result<(), NoMemory>
    ensures { OnOk result (Appends out.old out.new (dates_front front.now)) }
{
    if parameter_of(b"TZID", front).is_none() || parameter_of(b"RANGE", front).is_some() {
        out.extend_from_slice(front)?;
        return Ok(());
    }
    let (name, _) = name_and_rest(front);
    out.extend_from_slice(name)?;
    out.push(b':')?;
    Ok(())
}

// The front of a line of one date that is turned.
fn push_one_front(out: &mut Vec<u8>, zone: &[u8], role: Role, front: &[u8]) -> Result<(), NoMemory>
    ensures { OnOk result (Appends out.old out.new (one_front zone.now role front.now)) }
{
    match role {
        Role::Date => push_start_front(out, zone, front),
        Role::End | Role::Exception | Role::Identity => push_dates_front(out, front),
    }
}

// A line of dates with its new value.
fn push_new_dates(out: &mut Vec<u8>, front: &[u8], value: &[u8], new: &[u8]) -> Result<(), NoMemory>
    ensures { OnOk result (Appends out.old out.new
        (turned_line (dates_front front.now) front.now value.now new.now)) }
{
    if new == value {
        out.extend_from_slice(front)?;
    } else {
        push_dates_front(out, front)?;
    }
    out.extend_from_slice(new)?;
    Ok(())
}

// A line of one date with its new value.
fn push_new_date(
    out: &mut Vec<u8>,
    zone: &[u8],
    role: Role,
    front: &[u8],
    value: &[u8],
    new: &[u8],
) -> Result<(), NoMemory>
    ensures { OnOk result (Appends out.old out.new
        (turned_line (one_front zone.now role front.now) front.now value.now new.now)) }
{
    if new == value {
        out.extend_from_slice(front)?;
    } else {
        push_one_front(out, zone, role, front)?;
    }
    out.extend_from_slice(new)?;
    Ok(())
}

// A line of these dates in place of its value, each of which stands behind a comma; one without any gets a name that no reader uses.
fn push_behind_front(
    out: &mut Vec<u8>,
    front: &[u8],
    value: &[u8],
    dates: &[u8],
) -> Result<(), NoMemory>
    ensures { OnOk result (Appends out.old out.new
        (line_behind_commas front.now value.now dates.now)) }
{
    let [_, dates @ ..] = dates else {
        out.extend_from_slice(b"X-EXDATE:")?;
        return Ok(());
    };
    push_new_dates(out, front, value, dates)
}

// A line of dates with its moments of UTC in local time.
fn push_dates_line(
    alloc: Global,
    out: &mut Vec<u8>,
    clock: &mut Clock,
    role: Role,
    front: &[u8],
    value: &[u8],
) -> Result<(), NoMemory>
    ensures value { OnOk result (Appends out.old out.new (dates_line front.now value.now
        (local_dates (local_time clock.old) role (pieces 44 value.now)))) }
    ensures clock { clock.new ≡ clock.old }
{
    let mut dates = Vec::new(alloc);
    push_dates(alloc, &mut dates, clock, role, value)?;
    push_behind_front(out, front, value, dates.as_slice())
}

// A line of one date with its moment of UTC in local time.
fn push_moment_line(
    alloc: Global,
    out: &mut Vec<u8>,
    clock: &mut Clock,
    zone: &[u8],
    role: Role,
    front: &[u8],
    value: &[u8],
) -> Result<(), NoMemory>
    ensures value { OnOk result (Appends out.old out.new (turned_line (one_front zone.now role front.now)
        front.now value.now (local_moment (local_time clock.old) role value.now))) }
    ensures clock { clock.new ≡ clock.old }
{
    let mut new = Vec::new(alloc);
    push_moment(alloc, &mut new, clock, role, value)?;
    push_new_date(out, zone, role, front, value, new.as_slice())
}

// A line of a rule with its UNTIL in local time.
fn push_rule_line(
    alloc: Global,
    out: &mut Vec<u8>,
    clock: &mut Clock,
    front: &[u8],
    value: &[u8],
) -> Result<(), NoMemory>
    ensures value { OnOk result (Appends out.old out.new
        (front.now ++ local_rule (local_time clock.old) value.now)) }
    ensures clock { clock.new ≡ clock.old }
{
    out.extend_from_slice(front)?;
    push_rule(alloc, out, clock, value)
}

// A line with its value, by what is turned in it.
fn push_turned(
    alloc: Global,
    out: &mut Vec<u8>,
    clock: &mut Clock,
    zone: &[u8],
    turn: Turn,
    front: &[u8],
    value: &[u8],
) -> Result<(), NoMemory>
    ensures value { OnOk result (Appends out.old out.new
        (line_by (local_time clock.old) zone.now turn front.now value.now)) }
    ensures clock { clock.new ≡ clock.old }
{
    match turn {
        Turn::OfRule => push_rule_line(alloc, out, clock, front, value),
        Turn::OfDates(role) => push_dates_line(alloc, out, clock, role, front, value),
        Turn::OfOne(role) => push_moment_line(alloc, out, clock, zone, role, front, value),
        Turn::Nothing => {
            out.extend_from_slice(front)?;
            out.extend_from_slice(value)?;
            Ok(())
        }
    }
}

/// A line of an event, with its moments of UTC in local time of the zone of this name.
pub(crate) fn push_line(
    alloc: Global,
    out: &mut Vec<u8>,
    clock: &mut Clock,
    zone: &[u8],
    is_instance: bool,
    text: &[u8],
) -> Result<(), NoMemory>
    ensures value { OnOk result (Appends out.old out.new
        (local_line (local_time clock.old) zone.now is_instance text.now)) }
    ensures clock { clock.new ≡ clock.old }
{
    let (_, rest) = name_and_rest(text);
    let Some(value) = after_colon(rest) else {
        out.extend_from_slice(text)?;
        return Ok(());
    };
    let front = before(text, value);
    push_turned(
        alloc,
        out,
        clock,
        zone,
        turn_of(is_instance, text),
        front,
        value,
    )
}

/// A line with its local times, which are of the zone of this clock, in UTC. None if it has no value or a moment can't be told.
pub(crate) fn utc_line(
    alloc: Global,
    clock: &mut Clock,
    text: &[u8],
) -> Result<Option<Vec<u8>>, NoMemory>
    ensures value { IfOk result (λ new. option_map (λ new. new.items) new
        ≡ utc_line (utc_moment clock.old) text.now (after_colon false (after_name text.now))) }
    ensures clock { clock.new ≡ clock.old }
{
    let (_, rest) = name_and_rest(text);
    let Some(value) = after_colon(rest) else {
        return Ok(None);
    };
    let mut out = Vec::new(alloc);
    out.extend_from_slice(before(text, value))?;
    if push_utc_value(alloc, &mut out, clock, value)? {
        Ok(Some(out))
    } else {
        Ok(None)
    }
}

// Whether the values of such a line are dates.
fn has_dates(turn: Turn) -> bool
    ensures { result ≡ has_dates turn }
{
    match turn {
        Turn::OfDates(_) | Turn::OfOne(_) => true,
        Turn::OfRule | Turn::Nothing => false,
    }
}

// A line of an event with its local times in UTC, if it states dates of another zone of the text than that of this name.
fn in_utc(
    alloc: Global,
    others: &mut Clocks,
    name: &[u8],
    is_instance: bool,
    text: &[u8],
) -> Result<Option<Vec<u8>>, NoMemory>
    ensures value { IfOk result (λ new. option_map (λ new. new.items) new
        ≡ in_utc others.old name.now is_instance text.now) }
    ensures others { others.new ≡ others.old }
{
    if !has_dates(turn_of(is_instance, text)) {
        return Ok(None);
    }
    let Some(own) = parameter_of(b"TZID", text) else {
        return Ok(None);
    };
    if own == name {
        return Ok(None);
    }
    others.utc_line(alloc, own, text)
}

// A line in local time of the zone of this name, or as it is.
fn push_line_in(
    alloc: Global,
    out: &mut Vec<u8>,
    clock: &mut Clock,
    name: Option<&[u8]>,
    is_instance: bool,
    text: &[u8],
) -> Result<(), NoMemory>
    ensures value { OnOk result (Appends out.old out.new (line_in (local_time clock.old)
        (option_map (λ name. name.now) name.entry) is_instance text.now)) }
    ensures clock { clock.new ≡ clock.old }
{
    match name {
        Some(name) => push_line(alloc, out, clock, name, is_instance, text),
        None => {
            out.extend_from_slice(text)?;
            Ok(())
        }
    }
}

/// A line of an event: its local times of other zones in UTC, and then its moments of UTC in local time of the zone of this name.
pub(crate) fn push_event_line(
    alloc: Global,
    out: &mut Vec<u8>,
    clock: &mut Clock,
    others: &mut Clocks,
    name: Option<&[u8]>,
    is_instance: bool,
    text: &[u8],
) -> Result<(), NoMemory>
    ensures value { OnOk result (Appends out.old out.new (event_line (local_time clock.old) others.old
        (option_map (λ name. name.now) name.entry) is_instance text.now)) }
    ensures clock { clock.new ≡ clock.old }
    ensures others { others.new ≡ others.old }
{
    match in_utc(alloc, others, name.unwrap_or(b""), is_instance, text)? {
        Some(utc) => push_line_in(alloc, out, clock, name, is_instance, utc.as_slice()),
        None => push_line_in(alloc, out, clock, name, is_instance, text),
    }
}
