// Writes lines: each is folded after 75 bytes and ends with CR LF (RFC 5545, section 3.1).
ghost use Rattle.std.specs.Prelude.{◌≡◌, length, OnOk};
ghost use Rattle.rr_model.specs.Moment.Years.{IsInYears};
ghost use Rattle.rr_model.specs.Rule.Validity.{EndsInYears};
ghost use Rattle.rr_model.specs.Text.WriteLaws.{IsOneEnd};
ghost use Rattle.rr_model.specs.Text.Written.{date_line, folded_line, folded_rest, rule_line, value_type};
ghost use Rattle.rr_text.specs.Appending.{Appends};

use crate::rule_text::push_rule;
use rr_model::{Kind, NoMemory, Rule};
use rr_text::push_basic;

// The most bytes of a line, apart from its end.
const FIRST_BYTES: usize = 75;

// The most bytes after the blank with which a further line begins.
const FURTHER_BYTES: usize = 74;

// The bytes after the first line, on further lines.
fn push_further(out: &mut Vec<u8>, text: &[u8]) -> Result<(), NoMemory>
    ensures { OnOk result (Appends out.old out.new (folded_rest (length text.now) text.now)) }
{
    let mut rest = text;
    while !rest.is_empty() {
        let (piece, others) = rest.split_at(FURTHER_BYTES.min(rest.len()));
        out.extend_from_slice(b"\r\n ")?;
        out.extend_from_slice(piece)?;
        rest = others;
    }
    Ok(())
}

// A line, folded and ended.
fn push_folded(out: &mut Vec<u8>, line: &[u8]) -> Result<(), NoMemory>
    ensures { OnOk result (Appends out.old out.new (folded_line line.now)) }
{
    let (first, others) = line.split_at(FIRST_BYTES.min(line.len()));
    out.extend_from_slice(first)?;
    push_further(out, others)?;
    out.extend_from_slice(b"\r\n")?;
    Ok(())
}

// The parameter that says that a date is one.
fn value_type(kind: Kind) -> &'static [u8]
    ensures { result.now ≡ value_type kind }
{
    match kind {
        Kind::Days => b";VALUE=DATE",
        Kind::Moments => b"",
    }
}

// A line with one date; `line` is a buffer.
pub(crate) fn push_date_line(
    out: &mut Vec<u8>,
    line: &mut Vec<u8>,
    name: &[u8],
    kind: Kind,
    at: i64,
) -> Result<(), NoMemory>
    requires { IsInYears kind at }
    ensures { OnOk result (Appends out.old out.new (date_line name.now kind at)) }
{
    line.clear();
    line.extend_from_slice(name)?;
    line.extend_from_slice(value_type(kind))?;
    line.push(b':')?;
    push_basic(line, kind, at)?;
    push_folded(out, line)
}

// A line with a rule; `line` is a buffer.
pub(crate) fn push_rule_line(
    out: &mut Vec<u8>,
    line: &mut Vec<u8>,
    name: &[u8],
    rule: &Rule,
) -> Result<(), NoMemory>
    requires years { EndsInYears rule.now.end }
    requires one { IsOneEnd rule.now.end }
    ensures { OnOk result (Appends out.old out.new (rule_line name.now rule.now)) }
{
    line.clear();
    line.extend_from_slice(name)?;
    line.push(b':')?;
    push_rule(line, rule)?;
    push_folded(out, line)
}
