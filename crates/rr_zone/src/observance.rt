// One observance of a time zone (RFC 5545, section 3.6.5).
ghost use Rattle.std.specs.Prelude.{◌≡◌, IfOk, IfSome, option_map};
ghost use Rattle.std.specs.List.{list_all};
ghost use Rattle.rr_events.specs.Own.{first_named, first_value};
ghost use Rattle.rr_zone.specs.Observances.{IsSoundObservance, ends_not_before, has_local_start, is_local, is_zone_rule, is_zone_series, observance_by, observance_of};
ghost use Rattle.rr_zone.specs.Offsets.{IsBelowDay};
ghost use Rattle.rr_model.specs.Text.Passes.{date_value};

use crate::offset::offset_value;
use rr_ical::{date_value, is_named, scan_lines, value_of_line};
use rr_model::{
    Bytes, End, Fault, Freq, Kind, Line, LineList, LineName, NoMemory, Rule, Scan, Series, UsedLine,
};
use rr_rrule::read_scan;
use std::alloc::Global;

/// When an observance begins, again and again, and how far local time is ahead of UTC before and from then on.
#[derive(Drop)]
pub struct Observance {
    /// Its onsets, in local time as it was before them.
    pub series: Series,
    /// Local time less UTC before an onset, in seconds.
    pub from: i32,
    /// Local time less UTC from an onset on, in seconds.
    pub to: i32,
}

// The first line of this name.
fn first_named<'a>(word: &[u8], lines: &'a [Line]) -> Option<&'a Line>
    ensures { option_map (λ line. line.now) result ≡ first_named word.now lines.now }
{
    for line in lines {
        if is_named(line.text.as_slice(), word) {
            return Some(line);
        }
    }
    None
}

/// The value of the first line of this name, the empty text if there is none.
fn first_value<'a>(word: &[u8], lines: &'a [Line]) -> &'a [u8]
    ensures { result.now ≡ first_value word.now lines.now }
{
    let Some(line) = first_named(word, lines) else {
        return b"";
    };
    value_of_line(line.text.as_slice()).unwrap_or(b"")
}

// The lines, in memory of their own.
fn copy_lines(alloc: Global, lines: &[Line]) -> Result<LineList, NoMemory>
    ensures { IfOk result (λ list. list ≡ lines.now) }
{
    let mut list = LineList::new(alloc);
    for line in lines {
        list.put(Line {
            number: line.number,
            text: Bytes::of(alloc, line.text.as_slice())?,
        })?;
    }
    Ok(list)
}

// Whether a line of DTSTART states a moment of local time.
fn is_local(line: &UsedLine) -> bool
    ensures { result ≡ is_local (date_value line.now.number line.now.value) }
{
    match date_value(line.number, line.value.as_slice()) {
        Ok(stamp) => matches!(stamp.kind, Kind::Moments) && !stamp.utc,
        Err(_) => false,
    }
}

// Whether the first DTSTART states a moment of local time.
fn has_local_start(lines: &[UsedLine]) -> bool
    ensures { result ≡ has_local_start lines.now }
{
    for line in lines {
        if matches!(line.name, LineName::Dtstart) {
            return is_local(line);
        }
    }
    false
}

// Whether a rule ends not before the start, at a moment.
fn ends_not_before(start: i64, end: End) -> bool
    ensures { result ≡ ends_not_before start end }
{
    match end {
        End::Never | End::Count(_) => true,
        End::Until { kind, at } => matches!(kind, Kind::Moments) && start <= at,
        End::Both { kind, at, .. } => matches!(kind, Kind::Moments) && start <= at,
    }
}

// Whether a rule is one of an observance: yearly, at the time of the start.
fn is_zone_rule(start: i64, rule: &Rule) -> bool
    ensures { result ≡ is_zone_rule start rule.now }
{
    matches!(rule.freq, Freq::Yearly)
        && rule.by_hour.is_empty()
        && rule.by_minute.is_empty()
        && rule.by_second.is_empty()
        && ends_not_before(start, rule.end)
}

// Whether all rules are of an observance.
fn are_zone_rules(start: i64, rules: &[Rule]) -> bool
    ensures { result ≡ list_all (is_zone_rule start) rules.now }
{
    for rule in rules {
        if !is_zone_rule(start, rule) {
            return false;
        }
    }
    true
}

// Whether a series is one of onsets.
fn is_zone_series(series: &Series) -> bool
    ensures { result ≡ is_zone_series series.now }
{
    matches!(series.kind, Kind::Moments)
        && series.excluded.is_empty()
        && series.minus.is_empty()
        && are_zone_rules(series.start, series.rules.as_slice())
}

// The observance of the used lines of a component.
fn observance_by(
    alloc: Global,
    from: i32,
    to: i32,
    scan: &Scan,
) -> Result<Option<Observance>, NoMemory>
    requires from { IsBelowDay from }
    requires to { IsBelowDay to }
    ensures value { IfOk result (λ observance. observance ≡ observance_by from to scan.now) }
    ensures sound { IfOk result (λ observance. IfSome observance IsSoundObservance) }
{
    if !has_local_start(scan.used.as_slice()) {
        return Ok(None);
    }
    match read_scan(alloc, Some(from), scan) {
        Err(Fault::NoMemory) => Err(NoMemory),
        Err(Fault::Refused(_)) => Ok(None),
        Ok(series) => {
            if is_zone_series(&series) {
                Ok(Some(Observance { series, from, to }))
            } else {
                Ok(None)
            }
        }
    }
}

/// The observance that the lines of a component state, if they state one.
pub(crate) fn read_observance(alloc: Global, lines: &[Line]) -> Result<Option<Observance>, NoMemory>
    ensures value { IfOk result (λ observance. observance ≡ observance_of lines.now) }
    ensures sound { IfOk result (λ observance. IfSome observance IsSoundObservance) }
{
    let Some(from) = offset_value(first_value(b"TZOFFSETFROM", lines)) else {
        return Ok(None);
    };
    let Some(to) = offset_value(first_value(b"TZOFFSETTO", lines)) else {
        return Ok(None);
    };
    let scan = scan_lines(alloc, true, 0, copy_lines(alloc, lines)?)?;
    observance_by(alloc, from, to, &scan)
}
