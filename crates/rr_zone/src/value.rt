// Values of lines with their moments of UTC in local time.
ghost use Rattle.std.specs.Prelude.{◌≡◌, ◌+ℤ◌, ◌++◌, ◌∷◌, [], codes, option_map, IfOk, IfSome, OnOk, Some};
ghost use Rattle.rr_model.specs.Moment.Years.{IsInYears};
ghost use Rattle.rr_model.specs.Text.Moments.{basic};
ghost use Rattle.rr_model.specs.Text.RuleValues.{pieces};
ghost use Rattle.rr_model.specs.Text.UsedLines.{trim};
ghost use Rattle.rr_model.specs.Text.Written.{basic_text};
ghost use Rattle.rr_model.specs.declared.kind.Kind.TheVariants.{Moments};
ghost use Rattle.rr_text.specs.Appending.{Appends};
ghost use Rattle.rr_zone.specs.Values.{IsWritable, behind_commas, date_as, in_years, local_dates, local_moment, local_part, local_rule, text_as, utc_date, utc_text_as, utc_value, utc_written_by, written, written_as, written_by};
ghost use Rattle.rr_zone.specs.Moments.{utc_moment};
ghost use Rattle.rr_zone.specs.OtherZones.{if_all};
ghost use Rattle.rr_zone.specs.Clocks.{local_time};

use crate::clock::{Clock, LocalTime};
use rr_ical::is_same_name;
use rr_model::{Kind, NoMemory, Stamp};
use rr_text::{basic, later_in_years, push_basic, split_once, trim};
use std::alloc::Global;

/// What a moment states in a line of an event.
#[derive(Clone, Copy)]
pub(crate) enum Role {
    /// The UNTIL of a rule.
    End,
    /// A date of EXDATE, which is taken out.
    Exception,
    /// A date of RDATE, or the start of an instance.
    Date,
    /// The value of RECURRENCE-ID, which names an occurrence.
    Identity,
}

/// How a date value is written.
#[derive(Clone, Copy)]
pub(crate) enum Written {
    /// As it stands in the text.
    Kept,
    /// Not at all: it is left out of its list.
    LeftOut,
    /// As this moment of local time, in seconds since 1970-01-01T00:00:00.
    At(i64),
}

// A date value as a moment of local time that is `later` seconds later, if that is one of the years 1 to 9999.
fn written_at(at: i64, later: i32) -> Written
    ensures value { result ≡ in_years (Written.At (at +ℤ later)) }
    ensures years { IsWritable result }
{
    match later_in_years(at, later) {
        Some(at) => Written::At(at),
        None => Written::Kept,
    }
}

// How a moment is written whose local time is shown twice, in the second pass.
fn written_again(role: Role, first: i64) -> Written
    ensures value { result ≡ in_years (written role (LocalTime.Again first)) }
    ensures years { IsWritable result }
{
    match role {
        Role::End => written_at(first, -1),
        Role::Exception => Written::LeftOut,
        Role::Date | Role::Identity => Written::Kept,
    }
}

// How a moment is written while local times that were skipped name moments too.
fn written_skipping(role: Role, at: i64) -> Written
    ensures value { result ≡ in_years (written role (LocalTime.Skipping at)) }
    ensures years { IsWritable result }
{
    match role {
        Role::Date => written_at(at, 0),
        Role::End | Role::Exception | Role::Identity => Written::Kept,
    }
}

// How a moment of UTC is written by its local time.
fn written_in(role: Role, time: LocalTime) -> Written
    ensures value { result ≡ in_years (written role time) }
    ensures years { IsWritable result }
{
    match time {
        LocalTime::Once(at) => written_at(at, 0),
        LocalTime::Again(first) => written_again(role, first),
        LocalTime::Skipping(at) => written_skipping(role, at),
    }
}

// How a date value that states this is written.
fn written_by(
    alloc: Global,
    clock: &mut Clock,
    role: Role,
    stamp: Stamp,
) -> Result<Written, NoMemory>
    requires { IsInYears stamp.kind stamp.at }
    ensures value { IfOk result (λ x. x ≡ written_by (local_time clock.old) role (Some stamp)) }
    ensures years { IfOk result IsWritable }
    ensures clock { clock.new ≡ clock.old }
{
    if !stamp.kind.is_same(Kind::Moments) || !stamp.utc {
        return Ok(Written::Kept);
    }
    let time = clock.local_time(alloc, stamp.at)?;
    Ok(written_in(role, time))
}

// How a date value is written.
fn written_as(
    alloc: Global,
    clock: &mut Clock,
    role: Role,
    text: &[u8],
) -> Result<Written, NoMemory>
    ensures value { IfOk result (λ x. x ≡ written_as (local_time clock.old) role text.now) }
    ensures years { IfOk result IsWritable }
    ensures clock { clock.new ≡ clock.old }
{
    match basic(trim(text)) {
        Some(stamp) => written_by(alloc, clock, role, stamp),
        None => Ok(Written::Kept),
    }
}

// A date value that is written so.
fn push_text(out: &mut Vec<u8>, text: &[u8], written: Written) -> Result<(), NoMemory>
    requires { IsWritable written }
    ensures { OnOk result (Appends out.old out.new (text_as text.now written)) }
{
    match written {
        Written::At(at) => push_basic(out, Kind::Moments, at),
        Written::Kept | Written::LeftOut => {
            out.extend_from_slice(text)?;
            Ok(())
        }
    }
}

/// Appends a date value: a moment of UTC in local time, and any other as it is.
pub(crate) fn push_moment(
    alloc: Global,
    out: &mut Vec<u8>,
    clock: &mut Clock,
    role: Role,
    text: &[u8],
) -> Result<(), NoMemory>
    ensures value { OnOk result (Appends out.old out.new
        (local_moment (local_time clock.old) role text.now)) }
    ensures clock { clock.new ≡ clock.old }
{
    let written = written_as(alloc, clock, role, text)?;
    push_text(out, text, written)
}

// A date value that is written so, behind a comma, if it is not left out.
fn push_behind_comma(out: &mut Vec<u8>, text: &[u8], written: Written) -> Result<(), NoMemory>
    requires { IsWritable written }
    ensures { OnOk result (Appends out.old out.new (date_as text.now written)) }
{
    if matches!(written, Written::LeftOut) {
        return Ok(());
    }
    out.push(b',')?;
    push_text(out, text, written)
}

// Appends a date value behind a comma, if it is not left out.
fn push_date(
    alloc: Global,
    out: &mut Vec<u8>,
    clock: &mut Clock,
    role: Role,
    text: &[u8],
) -> Result<(), NoMemory>
    ensures value { OnOk result (Appends out.old out.new
        (date_as text.now (written_as (local_time clock.old) role text.now))) }
    ensures clock { clock.new ≡ clock.old }
{
    let written = written_as(alloc, clock, role, text)?;
    push_behind_comma(out, text, written)
}

/// The date values between commas that are not left out, each behind a comma.
pub(crate) fn push_dates(
    alloc: Global,
    out: &mut Vec<u8>,
    clock: &mut Clock,
    role: Role,
    text: &[u8],
) -> Result<(), NoMemory>
    ensures value { OnOk result (Appends out.old out.new
        (behind_commas (local_dates (local_time clock.old) role (pieces 44 text.now)))) }
    ensures clock { clock.new ≡ clock.old }
{
    let mut rest = text;
    while let Some((piece, after)) = split_once(rest, b',') {
        push_date(alloc, out, clock, role, piece)?;
        rest = after;
    }
    push_date(alloc, out, clock, role, rest)
}

// How a date value that states this is written in UTC, if its moment can be told.
fn utc_written_by(
    alloc: Global,
    clock: &mut Clock,
    stamp: Stamp,
) -> Result<Option<Written>, NoMemory>
    requires { IsInYears stamp.kind stamp.at }
    ensures value { IfOk result (λ x. x ≡ utc_written_by (utc_moment clock.old) (Some stamp)) }
    ensures years { IfOk result (λ x. IfSome x IsWritable) }
    ensures clock { clock.new ≡ clock.old }
{
    if !stamp.kind.is_same(Kind::Moments) || stamp.utc {
        return Ok(Some(Written::Kept));
    }
    match clock.moment(alloc, stamp.at)? {
        Some(at) => Ok(Some(Written::At(at))),
        None => Ok(None),
    }
}

// How a date value is written in UTC, if its moment can be told.
fn utc_written(alloc: Global, clock: &mut Clock, text: &[u8]) -> Result<Option<Written>, NoMemory>
    ensures value { IfOk result (λ x. x ≡ utc_written_by (utc_moment clock.old) (basic (trim text.now))) }
    ensures years { IfOk result (λ x. IfSome x IsWritable) }
    ensures clock { clock.new ≡ clock.old }
{
    match basic(trim(text)) {
        Some(stamp) => utc_written_by(alloc, clock, stamp),
        None => Ok(Some(Written::Kept)),
    }
}

// Appends a moment of UTC in the basic form, with its `Z`.
fn push_utc(out: &mut Vec<u8>, at: i64) -> Result<(), NoMemory>
    requires { IsInYears Moments at }
    ensures { OnOk result (Appends out.old out.new (basic_text Moments at ++ codes "Z")) }
{
    push_basic(out, Kind::Moments, at)?;
    out.push(b'Z')?;
    Ok(())
}

// A date value that is written so in UTC.
fn push_utc_text(out: &mut Vec<u8>, text: &[u8], written: Written) -> Result<(), NoMemory>
    requires { IsWritable written }
    ensures { OnOk result (Appends out.old out.new (utc_text_as text.now written)) }
{
    match written {
        Written::At(at) => push_utc(out, at),
        Written::Kept | Written::LeftOut => {
            out.extend_from_slice(text)?;
            Ok(())
        }
    }
}

// A date value in UTC, and whether its moment can be told.
fn push_utc_date(
    alloc: Global,
    out: &mut Vec<u8>,
    clock: &mut Clock,
    text: &[u8],
) -> Result<bool, NoMemory>
    ensures value { IfOk result (λ is. if_all is out.new.items
        ≡ option_map (λ date. out.old.items ++ date) (utc_date (utc_moment clock.old) text.now)) }
    ensures clock { clock.new ≡ clock.old }
{
    match utc_written(alloc, clock, text)? {
        Some(written) => {
            push_utc_text(out, text, written)?;
            Ok(true)
        }
        None => Ok(false),
    }
}

/// The date values between commas in UTC, and whether the moments of all can be told. Otherwise the text is in pieces.
pub(crate) fn push_utc_value(
    alloc: Global,
    out: &mut Vec<u8>,
    clock: &mut Clock,
    text: &[u8],
) -> Result<bool, NoMemory>
    ensures value { IfOk result (λ is. if_all is out.new.items
        ≡ option_map (λ new. out.old.items ++ new) (utc_value (utc_moment clock.old) text.now)) }
    ensures clock { clock.new ≡ clock.old }
{
    let mut rest = text;
    while let Some((piece, after)) = split_once(rest, b',') {
        if !push_utc_date(alloc, out, clock, piece)? {
            return Ok(false);
        }
        out.push(b',')?;
        rest = after;
    }
    push_utc_date(alloc, out, clock, rest)
}

// Appends UNTIL with its value in local time.
fn push_until(
    alloc: Global,
    out: &mut Vec<u8>,
    clock: &mut Clock,
    name: &[u8],
    value: &[u8],
) -> Result<(), NoMemory>
    ensures value { OnOk result (Appends out.old out.new ((name.now ++ codes "=")
        ++ local_moment (local_time clock.old) Role.End value.now)) }
    ensures clock { clock.new ≡ clock.old }
{
    out.extend_from_slice(name)?;
    out.push(b'=')?;
    push_moment(alloc, out, clock, Role::End, value)
}

// Appends a part of a rule: UNTIL in local time, and any other as it is.
fn push_part(
    alloc: Global,
    out: &mut Vec<u8>,
    clock: &mut Clock,
    text: &[u8],
) -> Result<(), NoMemory>
    ensures value { OnOk result (Appends out.old out.new
        (local_part (local_time clock.old) text.now)) }
    ensures clock { clock.new ≡ clock.old }
{
    match split_once(text, b'=') {
        Some((name, value)) if is_same_name(trim(name), b"UNTIL") => push_until(
            alloc, out, clock, name, value,
        ),
        _ => {
            out.extend_from_slice(text)?;
            Ok(())
        }
    }
}

// A part of a rule before a semicolon.
fn push_before_semicolon(
    alloc: Global,
    out: &mut Vec<u8>,
    clock: &mut Clock,
    text: &[u8],
) -> Result<(), NoMemory>
    ensures value { OnOk result (Appends out.old out.new
        (local_part (local_time clock.old) text.now ++ 59 ∷ [])) }
    ensures clock { clock.new ≡ clock.old }
{
    push_part(alloc, out, clock, text)?;
    out.push(b';')?;
    Ok(())
}

/// A rule with its UNTIL in local time.
pub(crate) fn push_rule(
    alloc: Global,
    out: &mut Vec<u8>,
    clock: &mut Clock,
    text: &[u8],
) -> Result<(), NoMemory>
    ensures value { OnOk result (Appends out.old out.new
        (local_rule (local_time clock.old) text.now)) }
    ensures clock { clock.new ≡ clock.old }
{
    let mut rest = text;
    while let Some((piece, after)) = split_once(rest, b';') {
        push_before_semicolon(alloc, out, clock, piece)?;
        rest = after;
    }
    push_part(alloc, out, clock, rest)
}
