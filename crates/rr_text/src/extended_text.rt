// Reads extended dates and moments (ISO 8601; Microsoft Graph, dateTimeTimeZone).
ghost use Rattle.std.specs.Prelude.{◌≡◌, ◌<◌, ◌≤◌, ◌==◌, length, option_map, option_and_then, IfSome};
ghost use Rattle.rr_model.specs.Moment.{day_part};
ghost use Rattle.rr_model.specs.Moment.Years.{HasFourDigitYear, IsInYears};
ghost use Rattle.rr_model.specs.Text.Moments.{utc_mark};
ghost use Rattle.rr_model.specs.Text.ExtendedMoments.{extended_date_of, extended_time_of, count_zeros, after_fraction, extended_moment_of, extended, plain_extended};

use crate::moment::{basic_date, basic_time, is_letter_t, utc_mark};
use rr_model::{Kind, Stamp, moment_at};

// The day number of a date YYYY-MM-DD.
#[tactic(auto, unfolding(rr_model::specs::Text::ExtendedMoments::extended_date_of))]
fn extended_date(text: &[u8]) -> Option<i64>
    ensures day { result ≡ extended_date_of text.now }
    ensures years { IfSome result HasFourDigitYear }
{
    if text.len() != 10 || text[4] != b'-' || text[7] != b'-' {
        return None;
    }
    let digits = [
        text[0], text[1], text[2], text[3], text[5], text[6], text[8], text[9],
    ];
    basic_date(&digits)
}

// The second of the day of a time HH:MM:SS.
#[tactic(auto, unfolding(rr_model::specs::Text::ExtendedMoments::extended_time_of))]
fn extended_time(text: &[u8]) -> Option<u32>
    ensures second { result ≡ extended_time_of text.now }
    ensures below { IfSome result (λ s. s < 86_400) }
{
    if text.len() != 8 || text[2] != b':' || text[5] != b':' {
        return None;
    }
    let digits = [text[0], text[1], text[3], text[4], text[6], text[7]];
    basic_time(&digits)
}

fn count_zeros(text: &[u8]) -> usize
    ensures value { result ≡ count_zeros text.now }
    ensures few { result ≤ length text.now }
{
    text.iter().take_while(|b| **b == b'0').count()
}

// What follows a fraction of zeros, or the text if none begins.
fn after_fraction(text: &[u8]) -> Option<&[u8]>
    ensures { option_map (λ rest. rest.now) result ≡ after_fraction text.now }
{
    match text {
        [b'.', digits @ ..] => {
            let zeros = count_zeros(digits);
            if zeros > 0 {
                Some(&digits[zeros..])
            } else {
                None
            }
        }
        _ => Some(text),
    }
}

// Whether what stands after a moment marks it as UTC.
fn mark_after(text: &[u8]) -> Option<bool>
    ensures { result ≡ option_and_then utc_mark (after_fraction text.now) }
{
    match after_fraction(text) {
        None => None,
        Some(rest) => utc_mark(rest),
    }
}

// A moment YYYY-MM-DDTHH:MM:SS, and after it a fraction of zeros or none, and a `Z` or none.
#[tactic(auto, unfolding(rr_model::specs::Text::ExtendedMoments::extended_moment_of))]
fn extended_moment(text: &[u8]) -> Option<Stamp>
    ensures stamp { result ≡ extended_moment_of text.now }
    ensures years { IfSome result (λ s. HasFourDigitYear (day_part s.kind s.at)) }
{
    if text.len() < 19 {
        return None;
    }
    if !is_letter_t(text[10]) {
        return None;
    }
    let day = extended_date(&text[..10])?;
    let second = extended_time(&text[11..19])?;
    let utc = mark_after(&text[19..])?;
    Some(Stamp {
        kind: Kind::Moments,
        at: moment_at(Kind::Moments, day, second),
        utc,
    })
}

/// Reads a date YYYY-MM-DD or a moment YYYY-MM-DDTHH:MM:SS, after which a fraction of zeros and a `Z` may stand.
///
/// `at` is a day number, in days since 1970-01-01, or a number of seconds since 1970-01-01T00:00:00.
/// The date exists and is of the years 1 to 9999, the hour is 00 to 23, minute and second are 00 to 59.
/// `T` and `Z` stand in either case, and a fraction has one zero or more. Every other text is `None`.
/// Whether a fraction was written is not told (ISO 8601; Microsoft Graph, dateTimeTimeZone).
#[tactic(auto, unfolding(rr_model::specs::Text::ExtendedMoments::extended))]
pub fn extended(text: &[u8]) -> Option<Stamp>
    ensures stamp { result ≡ extended text.now }
    ensures years { IfSome result (λ s. HasFourDigitYear (day_part s.kind s.at)) }
{
    if text.len() == 10 {
        let day = extended_date(text)?;
        return Some(Stamp {
            kind: Kind::Days,
            at: day,
            utc: false,
        });
    }
    extended_moment(text)
}

/// An extended date `YYYY-MM-DD` or moment `YYYY-MM-DDThh:mm:ss` of the years 1 to 9999, without a fraction and without a `Z`
/// (ISO 8601). None for any other text.
pub fn plain_extended(text: &[u8]) -> Option<Stamp>
    ensures stamp { result ≡ plain_extended text.now }
    ensures years { IfSome result (λ s. IsInYears s.kind s.at) }
{
    if text.len() <= 19 {
        extended(text)
    } else {
        None
    }
}
