// Reads basic dates and moments (RFC 5545, sections 3.3.4 and 3.3.5).
ghost use Rattle.std.specs.Prelude.{◌≡◌, ◌+◌, ◌^◌, ◌<◌, ◌≤◌, ◌≤ℤ◌, pos, length, IfSome};
ghost use Rattle.std.specs.List.{AllPass, list_all};
ghost use Rattle.std.specs.Bool.{OnTrue};
ghost use Rattle.rr_model.specs.Text.Digits.{is_digit};
ghost use Rattle.rr_model.specs.Moment.Years.{HasFourDigitYear};
ghost use Rattle.rr_model.specs.Text.Moments.{is_digits, number_at, written_year, written_month, written_day, basic_date, basic_time, basic_moment, basic, is_letter_t, utc_mark};
ghost use Rattle.rr_model.specs.Moment.{day_part};

use crate::digits::value_of;
use rr_cal::{Date, day_of, valid};
use rr_model::{Kind, Stamp, moment_at};

/// Whether each byte is a digit.
pub fn all_digits(text: &[u8]) -> bool
    ensures { result ≡ list_all is_digit text.now }
{
    text.iter().all(|b| b.is_ascii_digit())
}

#[tactic(auto, using(crate::proofs::MomentTextLemmas::is_digits_means), unfolding(rr_model::specs::Text::Moments::is_digits))]
fn is_digits(text: &[u8], count: usize) -> bool
    ensures test { result ≡ is_digits count text.now }
    ensures digits { OnTrue result ((length text.now ≡ count) × AllPass is_digit text.now) }
{
    text.len() == count && all_digits(text)
}

// The number that a few digits write, from an index on.
fn number_at(digits: &[u8], start: usize, count: usize) -> u16
    requires few { count ≤ 4 }
    requires within { start + count ≤ length digits.now }
    requires digits { AllPass is_digit digits.now }
    ensures value { result ≡ number_at start count digits.now }
    ensures small { result < 10 ^ count }
{
    value_of(&digits[start..start + count]).unwrap() as u16
}

// The date that eight digits write, which the calendar may lack.
fn date_in(digits: &[u8]) -> Date
    requires eight { length digits.now ≡ 8 }
    requires digits { AllPass is_digit digits.now }
    ensures year { result.year ≡ pos (written_year digits.now) }
    ensures month { result.month ≡ written_month digits.now }
    ensures day { result.day ≡ written_day digits.now }
    ensures small { result.year ≤ℤ pos 9_999 }
{
    Date {
        year: i64::from(number_at(digits, 0, 4)),
        month: number_at(digits, 4, 2) as u8,
        day: number_at(digits, 6, 2) as u8,
    }
}

// The day number of a date YYYYMMDD of the years 1 to 9999.
#[tactic(auto, unfolding(rr_model::specs::Text::Moments::basic_date))]
pub(crate) fn basic_date(text: &[u8]) -> Option<i64>
    ensures day { result ≡ basic_date text.now }
    ensures years { IfSome result HasFourDigitYear }
{
    if !is_digits(text, 8) {
        return None;
    }
    let date = date_in(text);
    if date.year < 1 || !valid(date.year, date.month, date.day) {
        return None;
    }
    Some(day_of(date))
}

// The second of the day of a time HHMMSS.
#[tactic(auto, unfolding(rr_model::specs::Text::Moments::basic_time))]
pub(crate) fn basic_time(text: &[u8]) -> Option<u32>
    ensures second { result ≡ basic_time text.now }
    ensures below { IfSome result (λ s. s < 86_400) }
{
    if !is_digits(text, 6) {
        return None;
    }
    let hour = u32::from(number_at(text, 0, 2));
    let minute = u32::from(number_at(text, 2, 2));
    let second = u32::from(number_at(text, 4, 2));
    if hour > 23 || minute > 59 || second > 59 {
        return None;
    }
    Some(hour * 3_600 + minute * 60 + second)
}

// Whether what stands after a moment marks it as UTC: nothing, or one `Z`.
pub(crate) fn utc_mark(rest: &[u8]) -> Option<bool>
    ensures { result ≡ utc_mark rest.now }
{
    match rest {
        [] => Some(false),
        [b'Z' | b'z'] => Some(true),
        _ => None,
    }
}

/// Whether the byte is the letter T in either case.
pub fn is_letter_t(byte: u8) -> bool
    ensures { result ≡ is_letter_t byte }
{
    byte == b'T' || byte == b't'
}

// A moment YYYYMMDDTHHMMSS, and after it a `Z` or nothing.
#[tactic(auto, unfolding(rr_model::specs::Text::Moments::basic_moment))]
fn basic_moment(text: &[u8]) -> Option<Stamp>
    ensures stamp { result ≡ basic_moment text.now }
    ensures years { IfSome result (λ s. HasFourDigitYear (day_part s.kind s.at)) }
{
    if text.len() < 15 {
        return None;
    }
    if !is_letter_t(text[8]) {
        return None;
    }
    let day = basic_date(&text[..8])?;
    let second = basic_time(&text[9..15])?;
    let utc = utc_mark(&text[15..])?;
    Some(Stamp {
        kind: Kind::Moments,
        at: moment_at(Kind::Moments, day, second),
        utc,
    })
}

/// Reads a date YYYYMMDD or a moment YYYYMMDDTHHMMSS, after which a `Z` may stand.
///
/// The date exists and is of the years 1 to 9999, the hour is 00 to 23, minute and second are 00 to 59.
/// `T` and `Z` stand in either case. Every other text is `None`.
#[tactic(auto, unfolding(rr_model::specs::Text::Moments::basic))]
pub fn basic(text: &[u8]) -> Option<Stamp>
    ensures stamp { result ≡ basic text.now }
    ensures years { IfSome result (λ s. HasFourDigitYear (day_part s.kind s.at)) }
{
    if text.len() == 8 {
        let day = basic_date(text)?;
        return Some(Stamp {
            kind: Kind::Days,
            at: day,
            utc: false,
        });
    }
    basic_moment(text)
}
