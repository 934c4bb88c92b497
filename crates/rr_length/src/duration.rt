// The value of a DURATION line.
ghost use Rattle.std.specs.Prelude.{◌≡◌, ◌≤◌, IsTrue};
ghost use Rattle.rr_model.specs.Text.Digits.{digits_value, leading_digits};
ghost use Rattle.rr_length.specs.Duration.{are_weeks, begins, behind_days, behind_digits, body_of, duration_of, has_part, is_read, part_rest, part_value, timed, unsigned_of};

use crate::length::Length;
use rr_text::number;

// The greatest number of a unit that is read.
const MOST: u64 = 999_999_999_999;

// A number of a unit at the front of a text, and what stands behind it.
#[derive(Clone, Copy)]
struct Part<'a> {
    // Whether the number and the letter of its unit stand there.
    is_there: bool,
    // The number; 0 if they do not.
    value: u64,
    // What stands behind them; all of it if they do not.
    rest: &'a [u8],
}

// Whether a text begins with this letter.
fn begins(letter: u8, text: &[u8]) -> bool
    ensures { result ≡ begins letter text.now }
{
    match text {
        [] => false,
        [first, ..] => *first == letter,
    }
}

// The digits at the front of a text, and what stands behind them.
#[derive(Clone, Copy)]
struct Front<'a> {
    // Whether there is a digit, and the number is small enough.
    is_read: bool,
    // The number if it is.
    value: u64,
    // What stands behind the digits.
    behind: &'a [u8],
}

fn front_of(text: &[u8]) -> Front<'_>
    ensures is_read { result.is_read ≡ is_read text.now }
    ensures value { IsTrue result.is_read → result.value ≡ digits_value (leading_digits text.now) }
    ensures behind { result.behind.now ≡ behind_digits text.now }
    ensures most { IsTrue result.is_read → result.value ≤ 999_999_999_999 }
{
    let digits = number(text, 0);
    Front {
        is_read: digits.next > 0 && digits.value <= MOST,
        value: digits.value,
        behind: &text[digits.next..],
    }
}

// The number of the unit of this letter at the front of a text.
fn part_of(letter: u8, text: &[u8]) -> Part<'_>
    ensures is_there { result.is_there ≡ has_part letter text.now }
    ensures value { result.value ≡ part_value letter text.now }
    ensures rest { result.rest.now ≡ part_rest letter text.now }
    ensures most { result.value ≤ 999_999_999_999 }
{
    let front = front_of(text);
    if !front.is_read || !begins(letter, front.behind) {
        return Part {
            is_there: false,
            value: 0,
            rest: text,
        };
    }
    Part {
        is_there: true,
        value: front.value,
        rest: &front.behind[1..],
    }
}

// A length of `days` days and a time: hours, minutes and seconds in this order, one of them at least.
fn timed(days: u64, text: &[u8]) -> Option<Length>
    ensures { result ≡ timed days text.now }
{
    if text.is_empty() {
        return None;
    }
    let hours = part_of(b'H', text);
    let minutes = part_of(b'M', hours.rest);
    let seconds = part_of(b'S', minutes.rest);
    if !seconds.rest.is_empty() {
        return None;
    }
    Some(Length {
        days,
        seconds: hours.value * 3_600 + minutes.value * 60 + seconds.value,
    })
}

// What stands behind the days: nothing, or a T and a time.
fn behind_days(days: u64, text: &[u8]) -> Option<Length>
    ensures { result ≡ behind_days days text.now }
{
    match text {
        [] => Some(Length { days, seconds: 0 }),
        [first, time @ ..] => {
            if *first == b'T' {
                timed(days, time)
            } else {
                None
            }
        }
    }
}

// What stands behind the P: weeks alone, or days, a time, or both.
fn body_of(text: &[u8]) -> Option<Length>
    ensures { result ≡ body_of text.now }
{
    if text.is_empty() {
        return None;
    }
    let weeks = part_of(b'W', text);
    if weeks.is_there && weeks.rest.is_empty() {
        return Some(Length {
            days: weeks.value * 7,
            seconds: 0,
        });
    }
    let days = part_of(b'D', text);
    behind_days(days.value, days.rest)
}

// A P and what stands behind it.
fn unsigned_of(text: &[u8]) -> Option<Length>
    ensures { result ≡ unsigned_of text.now }
{
    match text {
        [] => None,
        [first, body @ ..] => { if *first == b'P' { body_of(body) } else { None } }
    }
}

/// The length that the value of a DURATION line states (RFC 5545, sections 3.3.6 and 3.8.2.5), as `PT1H30M`, `P1D` or `P2W`. Letters
/// are capitals, and no blanks stand around it.
///
/// Weeks stand alone and are seven days each; behind a T stand hours, minutes and seconds in this order, one of them at least; a plus
/// may stand before the P. `None` comes for each other text, for a minus, since no event ends before it starts, and for a number above
/// 999,999,999,999.
pub fn duration_of(text: &[u8]) -> Option<Length>
    ensures { result ≡ duration_of text.now }
{
    match text {
        [] => None,
        [first, rest @ ..] => {
            if *first == b'+' {
                unsigned_of(rest)
            } else {
                unsigned_of(text)
            }
        }
    }
}
