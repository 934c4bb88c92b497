// The first pass over the used lines of an event judges each line alone (RFC 5545, section 3.8).
ghost use Rattle.std.specs.Prelude.{◌≡◌, ◌<◌, IfOk};
ghost use Rattle.rr_model.specs.Answers.{Answers};
ghost use Rattle.rr_model.specs.Moment.Years.{IsInYears};
ghost use Rattle.rr_model.specs.Text.Passes.{judged_start, has_slash, date_value};
ghost use Rattle.rr_ical.specs.Steps.{Becomes};
ghost use Rattle.rr_ical.specs.Kept.{date_values, kept_date, kept_dates, kept_line, kept_lines, kept_rule, kept_start, next_date, next_rule, nothing_kept};

use crate::dates::cut_date;
use crate::kept::{LineValue, LineValues, ReadLines};
use crate::language::{RuleLanguage, StatedRule};
use rr_model::{Fault, FirstPass, LineName, MAX_DATES, MAX_RULES, Refusal, Stamp, UsedLine};
use rr_text::{basic, trim};
use std::alloc::Global;

// DTSTART as its line states it; a second start is refused before its value is read.
fn judged_start(line: u64, pass: FirstPass, text: &[u8]) -> Result<FirstPass, Fault>
    ensures { Answers (judged_start line pass text.now) result }
{
    if pass.start.is_some() {
        return Err(Fault::Refused(Refusal::PartTwice(line)));
    }
    match basic(text) {
        Some(stamp) => Ok(FirstPass {
            start: Some(stamp),
            ..pass
        }),
        None => Err(Fault::Refused(Refusal::BadMoment(line))),
    }
}

// Whether the text holds a slash, as periods do.
fn has_slash(text: &[u8]) -> bool
    ensures { result ≡ has_slash text.now }
{
    text.iter().any(|b| *b == b'/')
}

/// What a date value states, with blanks around it or none. `BadMoment` comes if it is no date or moment.
pub fn date_value(line: u64, text: &[u8]) -> Result<Stamp, Refusal>
    ensures value { result ≡ date_value line text.now }
    ensures years { IfOk result (λ stamp. IsInYears stamp.kind stamp.at) }
{
    match basic(trim(text)) {
        Some(stamp) => Ok(stamp),
        None => Err(Refusal::BadMoment(line)),
    }
}

// One more value of RDATE or EXDATE, after `date_count` of them.
fn next_date(line: u64, is_plus: bool, date_count: usize, text: &[u8]) -> Result<Stamp, Refusal>
    ensures value { result ≡ next_date line is_plus date_count text.now }
    ensures room { IfOk result (λ stamp. date_count < MAX_DATES) }
{
    if date_count >= MAX_DATES {
        return Err(Refusal::TooManyParts);
    }
    if is_plus && has_slash(text) {
        return Err(Refusal::PeriodValue);
    }
    date_value(line, text)
}

// Keeps one value of RDATE or EXDATE.
fn keep_date<R: Drop>(
    line: u64,
    is_plus: bool,
    read: &mut ReadLines<R>,
    text: &[u8],
) -> Result<(), Fault>
    ensures { Becomes (kept_date line is_plus read.old text.now) read.new result }
{
    let stamp = next_date(line, is_plus, read.pass.date_count, text)?;
    read.pass.date_count += 1;
    read.values.put(LineValue::OneDate {
        line,
        is_plus,
        stamp,
    })?;
    Ok(())
}

// Keeps the values of a line of RDATE or EXDATE from left to right, between commas and, if they are taken, semicolons.
fn keep_dates<R: Drop>(
    line: u64,
    is_plus: bool,
    takes_semicolons: bool,
    read: &mut ReadLines<R>,
    text: &[u8],
) -> Result<(), Fault>
    ensures { Becomes (kept_dates line is_plus read.old (date_values takes_semicolons text.now))
        read.new result }
{
    let mut rest = text;
    while let Some((piece, after)) = cut_date(takes_semicolons, rest) {
        keep_date(line, is_plus, read, piece)?;
        rest = after;
    }
    keep_date(line, is_plus, read, rest)
}

// One more rule, after `rule_count` of them; it is read only if there is room for it.
fn next_rule<R: Drop, L: RuleLanguage<R>>(
    language: &L,
    alloc: Global,
    line: u64,
    rule_count: usize,
    text: &[u8],
) -> Result<StatedRule<R>, Fault>
    ensures answer { Answers (next_rule L.language line rule_count text.now) result }
    ensures room { IfOk result (λ stated. rule_count < 16) }
{
    if rule_count >= MAX_RULES {
        return Err(Fault::Refused(Refusal::TooManyParts));
    }
    language.stated(alloc, line, text)
}

// The rule of RRULE or EXRULE is kept.
fn keep_rule<R: Drop, L: RuleLanguage<R>>(
    language: &L,
    alloc: Global,
    line: u64,
    is_given: bool,
    read: &mut ReadLines<R>,
    text: &[u8],
) -> Result<(), Fault>
    ensures { Becomes (kept_rule L.language line is_given read.old text.now) read.new result }
{
    let stated = next_rule(language, alloc, line, read.pass.rule_count, text)?;
    read.pass.rule_count += 1;
    read.values.put(LineValue::OneRule {
        line,
        is_given,
        stated,
    })?;
    Ok(())
}

// The start is kept.
fn keep_start<R: Drop>(line: u64, read: &mut ReadLines<R>, text: &[u8]) -> Result<(), Fault>
    ensures { Becomes (kept_start line read.old text.now) read.new result }
{
    read.pass = judged_start(line, read.pass, text)?;
    Ok(())
}

// One used line.
fn keep_line<R: Drop, L: RuleLanguage<R>>(
    language: &L,
    alloc: Global,
    read: &mut ReadLines<R>,
    line: &UsedLine,
) -> Result<(), Fault>
    ensures { Becomes (kept_line L.language line.now.number line.now.name read.old line.now.value)
        read.new result }
{
    let number = line.number;
    let text = line.value.as_slice();
    match line.name {
        LineName::Dtstart => keep_start(number, read, text),
        LineName::Rrule => keep_rule(language, alloc, number, true, read, text),
        LineName::Exrule => keep_rule(language, alloc, number, false, read, text),
        LineName::Rdate => keep_dates(number, true, language.takes_semicolons(), read, text),
        LineName::Exdate => keep_dates(number, false, language.takes_semicolons(), read, text),
    }
}

/// The first pass: the start, and each rule and date value as its line states it.
pub(crate) fn first_pass<R: Drop, L: RuleLanguage<R>>(
    language: &L,
    alloc: Global,
    lines: &[UsedLine],
) -> Result<ReadLines<R>, Fault>
    ensures { Answers (kept_lines L.language nothing_kept lines.now) result }
{
    let mut read = ReadLines {
        pass: FirstPass {
            start: None,
            rule_count: 0,
            date_count: 0,
        },
        values: LineValues::new(alloc),
    };
    for line in lines {
        keep_line(language, alloc, &mut read, line)?;
    }
    Ok(read)
}
