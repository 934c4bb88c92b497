// The parts of a rule that may have RSCALE and SKIP, one after the other (RFC 7529, section 4).
ghost use Rattle.std.specs.Prelude.{◌≡◌, ◌≤ℤ◌, [], int_lt, IfOk, neg_ℤ, pos};
ghost use Rattle.std.specs.List.{list_all};
ghost use Rattle.rr_model.specs.Answers.{Answers};
ghost use Rattle.rr_model.specs.Text.RuleValues.{pieces, rising_values};
ghost use Rattle.rr_model.specs.Text.Steps.{in_turn};
ghost use Rattle.rr_model.specs.Text.UsedLines.{is_name_byte};
ghost use Rattle.rr_ical.specs.Steps.{Becomes};
ghost use Rattle.rr_skip.specs.Parts.{front_day, front_days, has_scale_part, is_scale_name, is_taken, no_scale_parts, scale_part_named};
ghost use Rattle.rr_skip.specs.Parts.{scale_parts, scale_parts_of, skip_named, with_scale, with_scale_part, with_scale_value, with_taken_value};

use crate::Skip;
use rr_model::{Fault, Numbers, Refusal};
use rr_rule_parts::{
    NumberBounds, PartName, RuleParts, have_number_form, is_present, no_parts, number_within,
    part_named, put_part_value, without_last_semicolon,
};
use rr_text::{is_word, line_value, split_once};
use std::alloc::Global;

/// The name of a part of such a rule.
#[derive(Clone, Copy, Debug, PartialEq, Eq)]
pub enum ScalePart {
    /// RSCALE, the calendar in which the rule counts (RFC 7529, section 4.1).
    Scale,
    /// SKIP, what becomes of a day that a month lacks.
    Skipping,
    /// A part of RFC 5545.
    Of(PartName),
}

/// The parts of such a rule as far as they are read.
#[derive(Drop)]
pub struct ScaledParts {
    /// Whether RSCALE is present; GREGORIAN is its only value that is read.
    pub has_scale: bool,
    /// The value of SKIP, if it is present.
    pub skip: Option<Skip>,
    /// The parts of RFC 5545.
    pub parts: RuleParts,
}

// Whether the part is read beside RSCALE.
fn is_taken(name: PartName) -> bool
    ensures { result ≡ is_taken name }
{
    matches!(
        name,
        PartName::Freq
            | PartName::Until
            | PartName::Count
            | PartName::Interval
            | PartName::WeekStart
            | PartName::ByMonthDay
            | PartName::ByMonth
    )
}

// The part of a name, on this line.
#[tactic(auto, unfolding(crate::specs::Parts::scale_part_named))]
fn scale_part_named(line: u64, name: &[u8]) -> Result<ScalePart, Refusal>
    ensures { result ≡ scale_part_named line name.now }
{
    if is_word(name, b"RSCALE") {
        return Ok(ScalePart::Scale);
    }
    if is_word(name, b"SKIP") {
        return Ok(ScalePart::Skipping);
    }
    let part = part_named(name).ok_or(Refusal::BadRule(line))?;
    if is_taken(part) {
        Ok(ScalePart::Of(part))
    } else {
        Err(Refusal::Extended)
    }
}

// Whether the part is present.
fn has_scale_part(parts: &ScaledParts, name: ScalePart) -> bool
    ensures { result ≡ has_scale_part parts.now name }
{
    match name {
        ScalePart::Scale => parts.has_scale,
        ScalePart::Skipping => parts.skip.is_some(),
        ScalePart::Of(name) => is_present(&parts.parts, name),
    }
}

fn are_name_bytes(text: &[u8]) -> bool
    ensures { result ≡ list_all is_name_byte text.now }
{
    text.iter().all(|b| b.is_ascii_alphanumeric() || *b == b'-')
}

fn is_scale_name(text: &[u8]) -> bool
    ensures { result ≡ is_scale_name text.now }
{
    !text.is_empty() && are_name_bytes(text)
}

// Notes RSCALE, whose value is judged.
#[tactic(auto, unfolding(crate::specs::Parts::with_scale))]
fn put_scale(line: u64, parts: &mut ScaledParts, text: &[u8]) -> Result<(), Fault>
    ensures { Becomes (with_scale line parts.old text.now) parts.new result }
{
    if !is_scale_name(text) {
        return Err(Fault::Refused(Refusal::BadRule(line)));
    }
    if !is_word(text, b"GREGORIAN") {
        return Err(Fault::Refused(Refusal::Extended));
    }
    parts.has_scale = true;
    Ok(())
}

#[tactic(auto, unfolding(crate::specs::Parts::skip_named))]
fn skip_named(text: &[u8]) -> Option<Skip>
    ensures { result ≡ skip_named text.now }
{
    if is_word(text, b"OMIT") {
        Some(Skip::Omit)
    } else if is_word(text, b"BACKWARD") {
        Some(Skip::Backward)
    } else if is_word(text, b"FORWARD") {
        Some(Skip::Forward)
    } else {
        None
    }
}

// A day of the month from the front.
fn front_day(line: u64, text: &[u8]) -> Result<i16, Refusal>
    ensures value { result ≡ front_day line text.now }
    ensures range { IfOk result (λ n. (neg_ℤ (pos 31) ≤ℤ n) × (n ≤ℤ pos 31)) }
{
    let day = number_within(line, NumberBounds::signed(31), text)?;
    if day < 0 {
        Err(Refusal::Extended)
    } else {
        Ok(day)
    }
}

fn front_days_in_order(alloc: Global, line: u64, text: &[u8]) -> Result<Numbers, Fault>
    ensures { Answers (rising_values int_lt (front_day line) [] (pieces 44 text.now)) result }
{
    let mut days = Numbers::new(alloc);
    for piece in text.split(|b| *b == b',') {
        days.put(front_day(line, piece)?)?;
    }
    Ok(days)
}

// The days of BYMONTHDAY: first the form of all, then each.
#[tactic(auto, unfolding(crate::specs::Parts::front_days))]
fn front_days(alloc: Global, line: u64, text: &[u8]) -> Result<Numbers, Fault>
    ensures { Answers (front_days line text.now) result }
{
    if have_number_form(NumberBounds::signed(31), text) {
        front_days_in_order(alloc, line, text)
    } else {
        Err(Fault::Refused(Refusal::BadRule(line)))
    }
}

// Puts the value of a further part of RFC 5545 in its place.
fn put_taken_value(
    alloc: Global,
    line: u64,
    parts: &mut RuleParts,
    name: PartName,
    text: &[u8],
) -> Result<(), Fault>
    ensures { Becomes (with_taken_value line parts.old name text.now) parts.new result }
{
    match name {
        PartName::ByMonthDay => {
            parts.by_month_day = front_days(alloc, line, text)?;
            Ok(())
        }
        name => put_part_value(alloc, line, parts, name, text),
    }
}

// Puts SKIP in its place.
fn put_skip(line: u64, parts: &mut ScaledParts, text: &[u8]) -> Result<(), Fault>
    ensures { Becomes (with_scale_value line parts.old ScalePart.Skipping text.now) parts.new result }
{
    let skip = skip_named(text).ok_or(Refusal::BadRule(line))?;
    parts.skip = Some(skip);
    Ok(())
}

// Puts the value of a further part in its place.
fn put_scale_value(
    alloc: Global,
    line: u64,
    parts: &mut ScaledParts,
    name: ScalePart,
    text: &[u8],
) -> Result<(), Fault>
    ensures { Becomes (with_scale_value line parts.old name text.now) parts.new result }
{
    match name {
        ScalePart::Scale => put_scale(line, parts, text),
        ScalePart::Skipping => put_skip(line, parts, text),
        ScalePart::Of(name) => put_taken_value(alloc, line, &mut parts.parts, name, text),
    }
}

// Puts a further part, `NAME=value`, in its place.
#[tactic(auto, unfolding(crate::specs::Parts::with_scale_part))]
fn put_scale_part(
    alloc: Global,
    line: u64,
    parts: &mut ScaledParts,
    text: &[u8],
) -> Result<(), Fault>
    ensures { Becomes (with_scale_part line parts.old text.now) parts.new result }
{
    let Some((name, value)) = split_once(text, b'=') else {
        return Err(Fault::Refused(Refusal::BadRule(line)));
    };
    let name = scale_part_named(line, name)?;
    if has_scale_part(parts, name) {
        return Err(Fault::Refused(Refusal::PartTwice(line)));
    }
    put_scale_value(alloc, line, parts, name, value)
}

fn no_scale_parts(alloc: Global) -> ScaledParts
    ensures { result ≡ no_scale_parts }
{
    ScaledParts {
        has_scale: false,
        skip: None,
        parts: no_parts(alloc),
    }
}

// The parts of a text between semicolons.
fn scale_parts_between(alloc: Global, line: u64, text: &[u8]) -> Result<ScaledParts, Fault>
    ensures { Answers (in_turn (with_scale_part line) no_scale_parts (pieces 59 text.now)) result }
{
    let mut parts = no_scale_parts(alloc);
    for piece in text.split(|b| *b == b';') {
        put_scale_part(alloc, line, &mut parts, piece)?;
    }
    Ok(parts)
}

// The parts of a rule's value in capitals, judged one after the other.
#[tactic(auto, unfolding(crate::specs::Parts::scale_parts_of))]
fn scale_parts_of(alloc: Global, line: u64, text: &[u8]) -> Result<ScaledParts, Fault>
    ensures { Answers (scale_parts_of line text.now) result }
{
    scale_parts_between(alloc, line, without_last_semicolon(text))
}

/// The parts that the value of a line states.
#[tactic(auto, unfolding(crate::specs::Parts::scale_parts))]
pub(crate) fn scale_parts(alloc: Global, line: u64, text: &[u8]) -> Result<ScaledParts, Fault>
    ensures { Answers (scale_parts line text.now) result }
{
    let value = line_value(alloc, text)?;
    scale_parts_of(alloc, line, &value)
}
