// Reads a stated offset from UTC.
ghost use Rattle.std.specs.Prelude.{◌≡◌, ◌<◌, ◌≤◌, IfSome};
ghost use Rattle.rr_text.specs.Offset.{offset_of, two_digits, with_sign};

use crate::digits::number;
use crate::moment::all_digits;

// A number of two digits, below a limit.
fn two_digits(limit: u64, text: &[u8]) -> Option<u64>
    requires { limit ≤ 100 }
    ensures number { result ≡ two_digits limit text.now }
    ensures below { IfSome result (λ n. n < limit) }
{
    if text.len() != 2 || !all_digits(text) {
        return None;
    }
    let value = number(text, 0).value;
    if value < limit { Some(value) } else { None }
}

// A number of seconds, after a plus or a minus.
fn with_sign(sign: u8, seconds: u64) -> Option<i32>
    requires { seconds < 86_400 }
    ensures { result ≡ with_sign sign seconds }
{
    match sign {
        b'+' => Some(seconds as i32),
        b'-' => Some(-(seconds as i32)),
        _ => None,
    }
}

/// An offset from UTC in seconds: a sign with two digits of hours below 24, and two digits of minutes below 60.
pub fn offset_of(signed_hours: &[u8], minutes: &[u8]) -> Option<i32>
    ensures { result ≡ offset_of signed_hours.now minutes.now }
{
    let (sign, hours) = signed_hours.split_first()?;
    let hours = two_digits(24, hours)?;
    let minutes = two_digits(60, minutes)?;
    with_sign(*sign, hours * 3_600 + minutes * 60)
}
