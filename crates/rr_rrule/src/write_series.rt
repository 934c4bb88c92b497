// Writes a calendar text (RFC 5545, section 3.8.5).
ghost use Rattle.std.specs.Prelude.{◌≡◌, All, IfOk, OnOk};
ghost use Rattle.rr_model.specs.Moment.Years.{IsInYears};
ghost use Rattle.rr_model.specs.Rule.Validity.{EndsInYears};
ghost use Rattle.rr_model.specs.Series.Validity.{IsValidSeries};
ghost use Rattle.rr_model.specs.Text.WriteLaws.{IsOneEnd};
ghost use Rattle.rr_model.specs.Text.Written.{calendar_written, date_line, dates_out, lines_of, rule_line};
ghost use Rattle.rr_text.specs.Appending.{Appends};

use crate::write_line::{push_date_line, push_rule_line};
use rr_model::{Dates, Kind, NoMemory, Rule, Series};
use std::alloc::Global;

// A line for each rule; `line` is a buffer.
fn push_rules(
    out: &mut Vec<u8>,
    line: &mut Vec<u8>,
    name: &[u8],
    rules: &[Rule],
) -> Result<(), NoMemory>
    requires years { All (λ rule. EndsInYears rule.end) rules.now }
    requires one { All (λ rule. IsOneEnd rule.end) rules.now }
    ensures { OnOk result (Appends out.old out.new (lines_of (rule_line name.now) rules.now)) }
{
    for rule in rules {
        push_rule_line(out, line, name, rule)?;
    }
    Ok(())
}

// A line for each date; `line` is a buffer.
fn push_dates(
    out: &mut Vec<u8>,
    line: &mut Vec<u8>,
    name: &[u8],
    kind: Kind,
    dates: &[i64],
) -> Result<(), NoMemory>
    requires { All (IsInYears kind) dates.now }
    ensures { OnOk result (Appends out.old out.new (lines_of (date_line name.now kind) dates.now)) }
{
    for at in dates {
        push_date_line(out, line, name, kind, *at)?;
    }
    Ok(())
}

// The dates that are taken out, a start that does not count among them.
fn dates_out(alloc: Global, series: &Series) -> Result<Dates, NoMemory>
    ensures { IfOk result (λ dates. dates ≡ dates_out series.now) }
{
    let mut dates = series.minus.copy(alloc)?;
    if !series.start_counts {
        dates.put(series.start)?;
    }
    Ok(dates)
}

/// The text of a series (RFC 5545, section 3.8.5): DTSTART, RRULE for each rule in order, EXRULE for each excluded one in order
/// (RFC 2445, section 4.8.5.2), then RDATE and EXDATE rising.
///
/// The series is valid, and no rule has both UNTIL and COUNT. Each of the dates has a line of its own, with `VALUE=DATE`
/// if the series is one of dates; a start that does not count is among the EXDATE. A rule has its parts in this order:
/// FREQ, UNTIL or COUNT, INTERVAL unless it is 1, WKST unless it is MO, BYMONTH, BYWEEKNO, BYYEARDAY, BYMONTHDAY, BYDAY,
/// BYHOUR, BYMINUTE, BYSECOND, BYSETPOS. Lines end with CR LF; one of more than 75 bytes is folded (section 3.1).
pub fn write(alloc: Global, series: &Series) -> Result<Vec<u8>, NoMemory>
    requires valid { IsValidSeries series.now }
    requires one { All (λ rule. IsOneEnd rule.end) series.now.rules }
    requires excluded_one { All (λ rule. IsOneEnd rule.end) series.now.excluded }
    ensures { IfOk result (λ text. text.items ≡ calendar_written series.now) }
{
    let mut out = Vec::new(alloc);
    let mut line = Vec::new(alloc);
    let minus = dates_out(alloc, series)?;
    push_date_line(&mut out, &mut line, b"DTSTART", series.kind, series.start)?;
    push_rules(&mut out, &mut line, b"RRULE", series.rules.as_slice())?;
    push_rules(&mut out, &mut line, b"EXRULE", series.excluded.as_slice())?;
    push_dates(
        &mut out,
        &mut line,
        b"RDATE",
        series.kind,
        series.plus.as_slice(),
    )?;
    push_dates(
        &mut out,
        &mut line,
        b"EXDATE",
        series.kind,
        minus.as_slice(),
    )?;
    Ok(out)
}
