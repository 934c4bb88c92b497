// Writes a series.
ghost use Rattle.std.specs.Prelude.{◌≡◌, All, IfOk, OnOk};
ghost use Rattle.rr_model.specs.Moment.Years.{IsInYears};
ghost use Rattle.rr_model.specs.Rule.Validity.{EndsInYears};
ghost use Rattle.rr_model.specs.Text.Written.{line_break, lines_of};
ghost use Rattle.rr_model.specs.Vcal.Validity.{IsValidVSeries};
ghost use Rattle.rr_model.specs.Vcal.Written.{vcal_written};
ghost use Rattle.rr_text.specs.Appending.{Appends};
ghost use Rattle.rr_vcal.specs.Writing.{vcal_date_line, vcal_rule_line};

use crate::rule_text::push_rule;
use rr_model::{Kind, NoMemory, VRule, VSeries};
use rr_text::push_basic;
use std::alloc::Global;

// The end of a line.
fn end_line(out: &mut Vec<u8>) -> Result<(), NoMemory>
    ensures { OnOk result (Appends out.old out.new line_break) }
{
    out.extend_from_slice(b"\r\n")?;
    Ok(())
}

// A line of a name and a date or a moment.
fn push_date(out: &mut Vec<u8>, name: &[u8], kind: Kind, at: i64) -> Result<(), NoMemory>
    requires { IsInYears kind at }
    ensures { OnOk result (Appends out.old out.new (vcal_date_line name.now kind at)) }
{
    out.extend_from_slice(name)?;
    out.push(b':')?;
    push_basic(out, kind, at)?;
    end_line(out)
}

// A line for each date.
fn push_dates(out: &mut Vec<u8>, name: &[u8], kind: Kind, dates: &[i64]) -> Result<(), NoMemory>
    requires { All (IsInYears kind) dates.now }
    ensures { OnOk result
        (Appends out.old out.new (lines_of (vcal_date_line name.now kind) dates.now)) }
{
    for date in dates {
        push_date(out, name, kind, *date)?;
    }
    Ok(())
}

// The line of a rule.
fn push_rule_line(out: &mut Vec<u8>, name: &[u8], rule: &VRule) -> Result<(), NoMemory>
    requires { EndsInYears rule.now.end }
    ensures { OnOk result (Appends out.old out.new (vcal_rule_line name.now rule.now)) }
{
    out.extend_from_slice(name)?;
    out.push(b':')?;
    push_rule(out, rule)?;
    end_line(out)
}

// A line for each rule.
fn push_rules(out: &mut Vec<u8>, name: &[u8], rules: &[VRule]) -> Result<(), NoMemory>
    requires { All (λ rule. EndsInYears rule.end) rules.now }
    ensures { OnOk result (Appends out.old out.new (lines_of (vcal_rule_line name.now) rules.now)) }
{
    for rule in rules {
        push_rule_line(out, name, rule)?;
    }
    Ok(())
}

/// Writes a series as a vCalendar 1.0 text, which `read` reads back.
///
/// The lines are DTSTART, an RRULE for each rule in its order, an EXRULE for each excluded one in its order, an RDATE and an
/// EXDATE for each date, rising. They end with CR LF and are not folded. A rule is its head, its items in their order and its end: `#` and a number of events, `#0` for
/// no end, an end moment alone, or both, the number first. The last day of a month is `LD`, and the others from the back are
/// `2-` and so on. A place is written once before all its weekdays.
#[tactic(auto, unfolding(rr_model::specs::Vcal::Written::vcal_written))]
pub fn write(alloc: Global, series: &VSeries) -> Result<Vec<u8>, NoMemory>
    requires { IsValidVSeries series.now }
    ensures { IfOk result (λ text. text.items ≡ vcal_written series.now) }
{
    let mut out = Vec::new(alloc);
    push_date(&mut out, b"DTSTART", series.kind, series.start)?;
    push_rules(&mut out, b"RRULE", series.rules.as_slice())?;
    push_rules(&mut out, b"EXRULE", series.excluded.as_slice())?;
    push_dates(&mut out, b"RDATE", series.kind, series.plus.as_slice())?;
    push_dates(&mut out, b"EXDATE", series.kind, series.minus.as_slice())?;
    Ok(out)
}
