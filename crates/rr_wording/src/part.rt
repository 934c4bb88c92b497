// The parts of a rule that list numbers (RFC 5545, section 3.3.10).
ghost use Rattle.std.specs.Prelude.{◌≡◌, ◌+◌, ◌^◌, ◌<◌, ◌≤◌, ◌++◌, length, OnOk};
ghost use Rattle.rr_wording.specs.Lists.{listed};
ghost use Rattle.rr_wording.specs.Parts.{from_back, last_word, lead_end, lead_words, part_words, tail_words, value_words, values_words, week_words};

use crate::dates::month_name;
use crate::lists::push_joint;
use crate::numbers::{plural_end, push, push_numbered, push_place, push_place_from_back};
use rr_model::NoMemory;
use rr_text::push_unsigned;

// A part that lists numbers, and how it is said.
#[derive(Clone, Copy)]
pub(crate) enum Part {
    // BYMONTH.
    Month,
    // BYWEEKNO.
    Week,
    // BYYEARDAY.
    YearDay,
    // BYMONTHDAY, of months that are said.
    MonthDay,
    // BYMONTHDAY, of each month of a year.
    EveryMonthDay,
    // BYMONTHDAY, as a limit to the days that BYYEARDAY names.
    OnlyMonthDay,
    // BYHOUR.
    Hour,
    // BYMINUTE.
    Minute,
    // BYSECOND.
    Second,
    // BYSETPOS.
    Position,
}

// Appends a week of a year: `week 20`, `the last week`.
#[tactic(auto, unfolding(crate::specs::Parts::week_words))]
fn push_week(out: &mut Vec<u8>, number: i16) -> Result<(), NoMemory>
    ensures { OnOk result (out.new.items ≡ out.old.items ++ week_words number) }
{
    let count = u64::from(number.unsigned_abs());
    if number < 0 {
        push(out, b"the ")?;
        push_place_from_back(out, count)?;
        return push(out, b" week");
    }
    push(out, b"week ")?;
    push_unsigned(out, count)
}

// Appends a value of a part.
#[tactic(auto, unfolding(crate::specs::Parts::value_words))]
fn push_value(out: &mut Vec<u8>, part: Part, number: i16) -> Result<(), NoMemory>
    ensures { OnOk result (out.new.items ≡ out.old.items ++ value_words part number) }
{
    let count = u64::from(number.unsigned_abs());
    match part {
        Part::Month => push(out, month_name(count)),
        Part::Week => push_week(out, number),
        Part::YearDay => {
            push(out, b"the ")?;
            push_numbered(out, number)
        }
        Part::MonthDay | Part::EveryMonthDay | Part::OnlyMonthDay => push_numbered(out, number),
        Part::Hour | Part::Minute | Part::Second => push_unsigned(out, count),
        Part::Position => {
            push(out, b"the ")?;
            push_place(out, number)
        }
    }
}

// The word before the last of several values.
#[tactic(auto, unfolding(crate::specs::Parts::last_word))]
fn last_word(part: Part) -> &'static [u8]
    ensures { result.now ≡ last_word part }
{
    match part {
        Part::OnlyMonthDay => b" or ",
        _ => b" and ",
    }
}

// What stands before the values.
#[tactic(auto, unfolding(crate::specs::Parts::lead_words))]
fn lead_words(part: Part) -> &'static [u8]
    ensures { result.now ≡ lead_words part }
{
    match part {
        Part::Month | Part::Week => b" in ",
        Part::YearDay => b" on ",
        Part::MonthDay | Part::EveryMonthDay => b" on the ",
        Part::OnlyMonthDay => b" (if that is the ",
        Part::Hour => b" at the hour",
        Part::Minute => b" at the minute",
        Part::Second => b" at the second",
        Part::Position => b" (of these ",
    }
}

// Appends the ending of what stands before this number of values, if it names what they count.
#[tactic(auto, unfolding(crate::specs::Parts::lead_end))]
fn push_lead_end(out: &mut Vec<u8>, part: Part, count: usize) -> Result<(), NoMemory>
    ensures { OnOk result (out.new.items ≡ out.old.items ++ lead_end part count) }
{
    match part {
        Part::Hour | Part::Minute | Part::Second => {
            push(out, plural_end(count as u64))?;
            push(out, b" ")
        }
        _ => Ok(()),
    }
}

// What stands behind the values.
#[tactic(auto, unfolding(crate::specs::Parts::tail_words))]
fn tail_words(part: Part) -> &'static [u8]
    ensures { result.now ≡ tail_words part }
{
    match part {
        Part::Week => b" of the year",
        Part::YearDay => b" day of the year",
        Part::MonthDay => b" day of the month",
        Part::OnlyMonthDay => b" day of the month)",
        Part::EveryMonthDay => b" day of every month",
        Part::Position => b")",
        _ => b"",
    }
}

// Appends values in words, which `more` values follow.
fn push_listed(out: &mut Vec<u8>, part: Part, numbers: &[i16], more: usize) -> Result<(), NoMemory>
    requires { length numbers.now + more < 2 ^ 64 }
    ensures { OnOk result (out.new.items
        ≡ out.old.items ++ listed (value_words part) (last_word part) more numbers.now) }
{
    for (index, number) in numbers.iter().enumerate() {
        push_value(out, part, *number)?;
        push_joint(out, last_word(part), numbers.len() - index - 1 + more)?;
    }
    Ok(())
}

// How many numbers count from the back.
#[tactic(auto, unfolding(crate::specs::Parts::from_back))]
fn from_back(numbers: &[i16]) -> usize
    ensures value { result ≡ from_back numbers.now }
    ensures within { result ≤ length numbers.now }
{
    numbers.iter().filter(|number| **number < 0).count()
}

// Appends the values of a part: those that count from the back, the first of numbers that rise, are said last.
#[tactic(auto, unfolding(crate::specs::Parts::values_words))]
fn push_values(out: &mut Vec<u8>, part: Part, numbers: &[i16]) -> Result<(), NoMemory>
    ensures { OnOk result (out.new.items ≡ out.old.items ++ values_words part numbers.now) }
{
    let (back, front) = numbers.split_at(from_back(numbers));
    push_listed(out, part, front, back.len())?;
    push_listed(out, part, back, 0)
}

// Appends a part, unless it is absent.
#[tactic(auto, unfolding(crate::specs::Parts::part_words))]
pub(crate) fn push_part(out: &mut Vec<u8>, part: Part, numbers: &[i16]) -> Result<(), NoMemory>
    ensures { OnOk result (out.new.items ≡ out.old.items ++ part_words part numbers.now) }
{
    if numbers.is_empty() {
        return Ok(());
    }
    push(out, lead_words(part))?;
    push_lead_end(out, part, numbers.len())?;
    push_values(out, part, numbers)?;
    push(out, tail_words(part))
}
