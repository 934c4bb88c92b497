// The offsets of an observance (RFC 5545, section 3.3.14).
ghost use Rattle.std.specs.Prelude.{◌≡◌, ◌<◌, ◌≤◌, IfSome};
ghost use Rattle.rr_text.specs.Offset.{two_digits, with_sign};
ghost use Rattle.rr_zone.specs.Offsets.{IsBelowDay, hours_and_minutes, offset_value, seconds_of};

use rr_text::{all_digits, number};

// A number of two digits, below a limit.
fn two_digits(limit: u64, text: &[u8]) -> Option<u64>
    requires { limit ≤ 100 }
    ensures number { result ≡ two_digits limit text.now }
    ensures below { IfSome result (λ n. n < limit) }
{
    if text.len() != 2 || !all_digits(text) {
        return None;
    }
    let value = number(text, 0).value;
    if value < limit { Some(value) } else { None }
}

// A number of seconds, after a plus or a minus.
fn with_sign(sign: u8, seconds: u64) -> Option<i32>
    requires { seconds < 86_400 }
    ensures value { result ≡ with_sign sign seconds }
    ensures below { IfSome result IsBelowDay }
{
    match sign {
        b'+' => Some(seconds as i32),
        b'-' => Some(-(seconds as i32)),
        _ => None,
    }
}

// The seconds of two digits of hours and two of minutes.
fn hours_and_minutes(digits: &[u8]) -> Option<u64>
    ensures value { result ≡ hours_and_minutes digits.now }
    ensures below { IfSome result (λ s. s ≤ 86_340) }
{
    let (hours, minutes) = digits.split_at(2.min(digits.len()));
    let hours = two_digits(24, hours)?;
    let minutes = two_digits(60, minutes)?;
    Some(hours * 3_600 + minutes * 60)
}

// The seconds of HHMM or HHMMSS.
fn seconds_of(digits: &[u8]) -> Option<u64>
    ensures value { result ≡ seconds_of digits.now }
    ensures below { IfSome result (λ s. s < 86_400) }
{
    match digits.len() {
        4 => hours_and_minutes(digits),
        6 => {
            let minutes = hours_and_minutes(&digits[..4])?;
            let seconds = two_digits(60, &digits[4..])?;
            Some(minutes + seconds)
        }
        _ => None,
    }
}

/// Local time less UTC in seconds: a sign, hours below 24, minutes below 60, and seconds below 60 or none.
pub(crate) fn offset_value(text: &[u8]) -> Option<i32>
    ensures value { result ≡ offset_value text.now }
    ensures below { IfSome result IsBelowDay }
{
    let (sign, digits) = text.split_first()?;
    let seconds = seconds_of(digits)?;
    with_sign(*sign, seconds)
}
