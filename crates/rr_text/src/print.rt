// Prints numbers, dates and moments.
ghost use Rattle.std.specs.Prelude.{◌≡◌, ◌+◌, ◌/◌, ◌%◌, ◌<◌, ◌≤◌, ◌++◌, ◌∷◌, codes, nat_abs, OnOk, OnErr};
ghost use Rattle.std.specs.Fmt.{decimal, signed_decimal};
ghost use Rattle.rr_model.specs.Calendar.{IsDayWithin, day_of_month, month_of, year_of};
ghost use Rattle.rr_model.specs.Moment.{day_part};
ghost use Rattle.rr_model.specs.Moment.Years.{HasFourDigitYear, IsFromYearOne, IsInYears};
ghost use Rattle.rr_model.specs.Text.Moments.{decimal_of, extended_date, extended_date_text, extended_time_text, extended_text};
ghost use Rattle.rr_model.specs.Text.Written.{basic_date_text, basic_time_text, basic_text};
ghost use Rattle.rr_model.specs.declared.kind.Kind.TheVariants.{Moments};
ghost use Rattle.rr_text.specs.Appending.{Appends};

use itoa::Buffer;
use rr_cal::date_of;
use rr_model::{Kind, NoMemory, day_part, second_part};

/// Appends the number in decimal digits, with `-` before them if it is below 0.
pub fn push_number(out: &mut Vec<u8>, value: i64) -> Result<(), NoMemory>
    ensures ok { OnOk result (Appends out.old out.new (signed_decimal value)) }
    ensures err { OnErr result (out.new.items ≡ out.old.items) }
{
    let mut buffer = Buffer::new();
    out.extend_from_slice(buffer.format(value).as_bytes())?;
    Ok(())
}

/// Appends the number in decimal digits.
pub fn push_unsigned(out: &mut Vec<u8>, value: u64) -> Result<(), NoMemory>
    ensures ok { OnOk result (Appends out.old out.new (decimal value)) }
    ensures err { OnErr result (out.new.items ≡ out.old.items) }
{
    if value < 10 {
        out.push(b'0' + value as u8)?;
        return Ok(());
    }
    let mut buffer = Buffer::new();
    out.extend_from_slice(buffer.format(value).as_bytes())?;
    Ok(())
}

// The two digits of each number below 100, in a row.
static PAIRS: [u8; 200] =
    *b"00010203040506070809101112131415161718192021222324252627282930313233343536373839404142434445464748495051525354555657585960616263646566676869707172737475767778798081828384858687888990919293949596979899";

// The tens of a number of two digits, as a digit.
#[inline]
#[tactic(auto, using(crate::proofs::PrintLemmas::tens_digit))]
fn tens(value: u8) -> u8
    requires { value < 100 }
    ensures { result ≡ 48 + value / 10 }
{
    PAIRS[2 * value as usize]
}

// Its ones.
#[inline]
#[tactic(auto, using(crate::proofs::PrintLemmas::ones_digit))]
fn ones(value: u8) -> u8
    requires { value < 100 }
    ensures { result ≡ 48 + value % 10 }
{
    PAIRS[2 * value as usize + 1]
}

// The year, month and day of a day from 0001-01-01 on.
#[derive(Clone, Copy)]
struct DateParts {
    year: u64,
    month: u8,
    day: u8,
}

fn date_parts(day: i64) -> DateParts
    requires from { IsFromYearOne day }
    requires near { IsDayWithin 0 day }
    ensures year { result.year ≡ nat_abs (year_of day) }
    ensures month { result.month ≡ month_of day }
    ensures day { result.day ≡ day_of_month day }
    ensures small { (result.month < 100) × (result.day < 100) }
{
    let date = date_of(day);
    DateParts {
        year: date.year as u64,
        month: date.month,
        day: date.day,
    }
}

// YYYY-MM-DD of a year of at most four digits.
fn extended_bytes(date: DateParts) -> [u8; 10]
    requires year { date.year < 10_000 }
    requires two { (date.month < 100) × (date.day < 100) }
    ensures { result ≡ extended_date date.year date.month date.day }
{
    let century = (date.year / 100) as u8;
    let year = (date.year % 100) as u8;
    [
        tens(century),
        ones(century),
        tens(year),
        ones(year),
        b'-',
        tens(date.month),
        ones(date.month),
        b'-',
        tens(date.day),
        ones(date.day),
    ]
}

// A date whose year has more digits than four.
fn push_long_date(out: &mut Vec<u8>, date: DateParts) -> Result<(), NoMemory>
    requires year { 10_000 ≤ date.year }
    requires two { (date.month < 100) × (date.day < 100) }
    ensures ok { OnOk result
        (Appends out.old out.new (extended_date date.year date.month date.day)) }
    ensures err { OnErr result (out.new.items ≡ out.old.items) }
{
    let before = out.len();
    let end = extended_bytes(DateParts {
        year: date.year % 10_000,
        ..date
    });
    push_unsigned(out, date.year / 10_000)?;
    match out.extend_from_slice(&end) {
        Ok(()) => Ok(()),
        Err(_) => {
            out.truncate(before);
            Err(NoMemory)
        }
    }
}

/// Appends a date as `2024-02-29` (ISO 8601). `day` is a day number, in days since 1970-01-01.
///
/// A year past 9999 has as many digits as it needs.
pub fn push_extended_date(out: &mut Vec<u8>, day: i64) -> Result<(), NoMemory>
    requires from { IsFromYearOne day }
    requires near { IsDayWithin 0 day }
    ensures ok { OnOk result (Appends out.old out.new (extended_date_text day)) }
    ensures err { OnErr result (out.new.items ≡ out.old.items) }
{
    let date = date_parts(day);
    if date.year >= 10_000 {
        return push_long_date(out, date);
    }
    out.extend_from_slice(&extended_bytes(date))?;
    Ok(())
}

/// Appends a second of the day as `T09:30:00` (ISO 8601), as it follows its date in a moment.
#[tactic(auto, using(crate::proofs::PrintLemmas::padded_two), unfolding(rr_model::specs::Text::Moments::extended_time_text))]
pub fn push_extended_time(out: &mut Vec<u8>, second: u32) -> Result<(), NoMemory>
    requires { second < 86_400 }
    ensures ok { OnOk result (Appends out.old out.new (codes "T" ++ extended_time_text second)) }
    ensures err { OnErr result (out.new.items ≡ out.old.items) }
{
    let hour = (second / 3_600) as u8;
    let minute = (second / 60 % 60) as u8;
    let rest = (second % 60) as u8;
    let text = [
        b'T',
        tens(hour),
        ones(hour),
        b':',
        tens(minute),
        ones(minute),
        b':',
        tens(rest),
        ones(rest),
    ];
    out.extend_from_slice(&text)?;
    Ok(())
}

// A moment.
#[tactic(auto, unfolding(rr_model::specs::Text::Moments::extended_text))]
fn push_moment(out: &mut Vec<u8>, at: i64) -> Result<(), NoMemory>
    requires from { IsFromYearOne (day_part Moments at) }
    requires near { IsDayWithin 0 (day_part Moments at) }
    ensures ok { OnOk result (Appends out.old out.new (extended_text Moments at)) }
    ensures err { OnErr result (out.new.items ≡ out.old.items) }
{
    let before = out.len();
    push_extended_date(out, day_part(Kind::Moments, at))?;
    match push_extended_time(out, second_part(Kind::Moments, at)) {
        Ok(()) => Ok(()),
        Err(error) => {
            out.truncate(before);
            Err(error)
        }
    }
}

/// Appends a date as `2024-02-29`, a moment as `2024-02-29T09:30:00` (ISO 8601).
///
/// `at` is a day number, or 86,400 times the day number plus the second of the day.
/// A year past 9999 has as many digits as it needs.
#[tactic(auto, unfolding(rr_model::specs::Text::Moments::extended_text))]
pub fn push_extended(out: &mut Vec<u8>, kind: Kind, at: i64) -> Result<(), NoMemory>
    requires from { IsFromYearOne (day_part kind at) }
    requires near { IsDayWithin 0 (day_part kind at) }
    ensures ok { OnOk result (Appends out.old out.new (extended_text kind at)) }
    ensures err { OnErr result (out.new.items ≡ out.old.items) }
{
    match kind {
        Kind::Days => push_extended_date(out, at),
        Kind::Moments => push_moment(out, at),
    }
}

// ---- basic texts

// YYYYMMDD.
fn basic_bytes(date: DateParts) -> [u8; 8]
    requires year { date.year < 10_000 }
    requires two { (date.month < 100) × (date.day < 100) }
    ensures { result ≡ decimal_of 4 date.year ++ decimal_of 2 date.month ++ decimal_of 2 date.day }
{
    let century = (date.year / 100) as u8;
    let year = (date.year % 100) as u8;
    [
        tens(century),
        ones(century),
        tens(year),
        ones(year),
        tens(date.month),
        ones(date.month),
        tens(date.day),
        ones(date.day),
    ]
}

fn push_basic_date(out: &mut Vec<u8>, day: i64) -> Result<(), NoMemory>
    requires { HasFourDigitYear day }
    ensures ok { OnOk result (Appends out.old out.new (basic_date_text day)) }
    ensures err { OnErr result (out.new.items ≡ out.old.items) }
{
    out.extend_from_slice(&basic_bytes(date_parts(day)))?;
    Ok(())
}

#[tactic(auto, using(crate::proofs::PrintLemmas::padded_two), unfolding(rr_model::specs::Text::Written::basic_time_text))]
fn push_basic_time(out: &mut Vec<u8>, second: u32) -> Result<(), NoMemory>
    requires { second < 86_400 }
    ensures ok { OnOk result (Appends out.old out.new (codes "T" ++ basic_time_text second)) }
    ensures err { OnErr result (out.new.items ≡ out.old.items) }
{
    let hour = (second / 3_600) as u8;
    let minute = (second / 60 % 60) as u8;
    let rest = (second % 60) as u8;
    let text = [
        b'T',
        tens(hour),
        ones(hour),
        tens(minute),
        ones(minute),
        tens(rest),
        ones(rest),
    ];
    out.extend_from_slice(&text)?;
    Ok(())
}

#[tactic(auto, unfolding(rr_model::specs::Text::Written::basic_text))]
fn push_basic_moment(out: &mut Vec<u8>, at: i64) -> Result<(), NoMemory>
    requires { IsInYears Moments at }
    ensures ok { OnOk result (Appends out.old out.new (basic_text Moments at)) }
    ensures err { OnErr result (out.new.items ≡ out.old.items) }
{
    let before = out.len();
    push_basic_date(out, day_part(Kind::Moments, at))?;
    match push_basic_time(out, second_part(Kind::Moments, at)) {
        Ok(()) => Ok(()),
        Err(error) => {
            out.truncate(before);
            Err(error)
        }
    }
}

/// Appends a date as `20240229`, a moment as `20240229T093000` (RFC 5545, sections 3.3.4 and 3.3.5).
///
/// `at` is a day number, or 86,400 times the day number plus the second of the day.
#[tactic(auto, unfolding(rr_model::specs::Text::Written::basic_text))]
pub fn push_basic(out: &mut Vec<u8>, kind: Kind, at: i64) -> Result<(), NoMemory>
    requires { IsInYears kind at }
    ensures ok { OnOk result (Appends out.old out.new (basic_text kind at)) }
    ensures err { OnErr result (out.new.items ≡ out.old.items) }
{
    match kind {
        Kind::Days => push_basic_date(out, at),
        Kind::Moments => push_basic_moment(out, at),
    }
}
