// Reads a list, value by value.
ghost use Rattle.std.specs.Prelude.{◌≡◌, ◌<◌, IfOk, IfSome};
ghost use Rattle.rr_model.specs.Text.Lists.{series_of_list};
ghost use Rattle.rr_ical.specs.Lists.{empty_list, with_next, with_list_value, with_trimmed, with_list_line, with_list_lines, list_text, reads_list};
ghost use Rattle.rr_model.specs.Text.Lines.{physical_lines};
ghost use Rattle.rr_model.specs.Moment.Years.{IsInYears};
ghost use Rattle.rr_model.specs.Series.Validity.{IsValidSeries};
ghost use Rattle.rr_ical.specs.Listed.{IsValidListed};
ghost use Rattle.rr_model.specs.Answers.{Answers};

use crate::ListedDates;
use rr_model::{Dates, Fault, Kind, MAX_DATES, Refusal, Rules, Series, Stamp};
use rr_text::{is_text, plain_extended, take_line, trim, without_mark};
use std::alloc::Global;

#[tactic(auto, using(crate::proofs::ListedLemmas::empty_list_valid))]
fn empty_list(alloc: Global) -> ListedDates
    ensures value { result ≡ empty_list }
    ensures valid { IsValidListed result }
{
    ListedDates {
        first: None,
        last: 0,
        count: 0,
        plus: Dates::new(alloc),
    }
}

// The next value: of the first one's kind, and above the one before it.
fn with_next(line: u64, so_far: ListedDates, stamp: Stamp) -> Result<ListedDates, Fault>
    requires { so_far.count < MAX_DATES }
    ensures { Answers (with_next line so_far so_far.first stamp) result }
{
    let mut so_far = so_far;
    match so_far.first {
        None => so_far.first = Some(stamp),
        Some(first) => {
            if !first.kind.is_same(stamp.kind) {
                return Err(Fault::Refused(Refusal::MixedKinds(line)));
            }
            if stamp.at <= so_far.last {
                return Err(Fault::Refused(Refusal::NotRising(line)));
            }
            so_far.plus.put(stamp.at)?;
        }
    }
    so_far.last = stamp.at;
    so_far.count += 1;
    Ok(so_far)
}

#[tactic(auto, using(crate::proofs::ListedLemmas::next_valid))]
fn with_list_value(line: u64, so_far: ListedDates, text: &[u8]) -> Result<ListedDates, Fault>
    requires { IsValidListed so_far }
    ensures valid { IfOk result IsValidListed }
    ensures answer { Answers (with_list_value line so_far text.now) result }
{
    if so_far.count >= MAX_DATES {
        return Err(Fault::Refused(Refusal::TooManyParts));
    }
    let Some(stamp) = plain_extended(text) else {
        return Err(Fault::Refused(Refusal::BadMoment(line)));
    };
    with_next(line, so_far, stamp)
}

// A text without blanks around it; an empty one is passed over.
fn with_trimmed(line: u64, so_far: ListedDates, text: &[u8]) -> Result<ListedDates, Fault>
    requires { IsValidListed so_far }
    ensures answer { Answers (with_trimmed line so_far text.now) result }
    ensures valid { IfOk result IsValidListed }
{
    match text {
        [] => Ok(so_far),
        _ => with_list_value(line, so_far, text),
    }
}

#[tactic(auto, unfolding(crate::specs::Lists::with_list_line))]
fn with_list_line(line: u64, so_far: ListedDates, text: &[u8]) -> Result<ListedDates, Fault>
    requires { IsValidListed so_far }
    ensures answer { Answers (with_list_line line so_far text.now) result }
    ensures valid { IfOk result IsValidListed }
{
    with_trimmed(line, so_far, trim(text))
}

// All lines.
fn with_list_lines(alloc: Global, bytes: &[u8]) -> Result<ListedDates, Fault>
    ensures valid { IfOk result IsValidListed }
    ensures answer { Answers (with_list_lines 1 empty_list (physical_lines bytes.now)) result }
{
    let mut so_far = empty_list(alloc);
    let mut rest = bytes;
    let mut number = 0u64;
    while let Some((text, after)) = take_line(rest) {
        number += 1;
        so_far = with_list_line(number, so_far, text)?;
        rest = after;
    }
    Ok(so_far)
}

fn series_of_list(alloc: Global, first: Option<Stamp>, plus: Dates) -> Series
    ensures { result ≡ series_of_list first plus }
{
    match first {
        None => Series {
            kind: Kind::Days,
            start: 0,
            start_counts: false,
            rules: Rules::new(alloc),
            excluded: Rules::new(alloc),
            plus: Dates::new(alloc),
            minus: Dates::new(alloc),
        },
        Some(first) => Series {
            kind: first.kind,
            start: first.at,
            start_counts: true,
            rules: Rules::new(alloc),
            excluded: Rules::new(alloc),
            plus,
            minus: Dates::new(alloc),
        },
    }
}

#[tactic(auto, unfolding(crate::specs::Lists::list_text))]
fn read_text(alloc: Global, text: &[u8]) -> Result<Series, Fault>
    ensures valid { IfOk result IsValidSeries }
    ensures answer { Answers (list_text text.now) result }
{
    let all = with_list_lines(alloc, without_mark(text))?;
    Ok(series_of_list(alloc, all.first, all.plus))
}

/// Reads a list of dates or moments, one on each line and rising, into a series without rules.
///
/// A value is a date YYYY-MM-DD or a moment YYYY-MM-DDTHH:MM:SS (ISO 8601) of the years 1 to 9999, with blanks and
/// tabs around it or none. Empty lines and one byte order mark are passed over. The first value is the start, which
/// counts; of an empty list nothing occurs. The first fault is the refusal: `NotText` for bytes that are no UTF-8,
/// then line by line `TooManyParts` at the 10,001st value, `BadMoment`, `MixedKinds` for another kind than the
/// first value's, and `NotRising` for a value that is not above the one before it.
#[tactic(auto, unfolding(crate::specs::Lists::reads_list))]
pub fn read_list(alloc: Global, bytes: &[u8]) -> Result<Series, Fault>
    ensures answers { Answers (reads_list bytes.now) result }
    ensures valid { IfOk result IsValidSeries }
{
    if !is_text(bytes) {
        return Err(Fault::Refused(Refusal::NotText));
    }
    read_text(alloc, bytes)
}
